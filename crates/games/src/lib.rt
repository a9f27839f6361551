// What a player can force on a finite graph: definitions in specs/, theorems in proofs/, no code.
#![tactic(auto)]
