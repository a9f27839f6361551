// A text as lines: definitions in specs/, theorems in proofs/, no code.
#![tactic(auto)]
