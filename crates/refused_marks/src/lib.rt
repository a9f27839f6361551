// The paths that show why a mark's condition is false: definitions in specs/, theorems in proofs/, no code.
#![tactic(auto)]
