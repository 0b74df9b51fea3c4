// The rules of document 01: definitions in specs/, theorems in proofs/, no code.
#![tactic(auto)]
