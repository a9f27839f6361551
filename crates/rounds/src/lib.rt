// Rounds of marks from a stage: the claim in specs/, the theorem in proofs/, no code.
#![tactic(auto)]
