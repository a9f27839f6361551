// Ways and lassos on a finite graph, and what they show of a path operator: definitions in specs/, theorems in proofs/, no code.
#![tactic(auto)]
