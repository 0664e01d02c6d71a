// General facts about tests, lists, parts of lists and sums: see specs/. There is no code here.
#![tactic(auto)]
