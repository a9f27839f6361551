// Demand 3: the claim in specs/, the theorem in proofs/, no code.
#![tactic(auto)]
