// Theorems alone: what they are about is in specs/, why they hold in proofs/.
#![tactic(auto)]
