// Which texts begin a condition's spelling: definitions in specs/, theorems in proofs/, no code.
#![tactic(auto)]
