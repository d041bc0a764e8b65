// Theorems alone: what is promised is in specs/, why it holds in proofs/.
#![tactic(auto)]
