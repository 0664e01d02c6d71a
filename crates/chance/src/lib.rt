// Weights and the survival signature formula: definitions and theorems only (specs/, proofs/).
#![tactic(auto)]
