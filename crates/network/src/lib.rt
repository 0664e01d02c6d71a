// Networks, walks and routes: definitions and theorems only (specs/, proofs/).
#![tactic(auto)]
