// The given and the rewritten program run in lockstep: definitions in specs/, the theorem in proofs/, no code.
#![tactic(auto)]
