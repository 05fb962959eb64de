// The paper and document 01's answers: definitions in specs/, theorems in proofs/, no code.

#![tactic(auto)]
