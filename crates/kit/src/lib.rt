// Names of the kit's libraries, passed on for definitions and proofs (specs/Names.antt). There is no code here.
#![tactic(auto)]
