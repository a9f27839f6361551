// Document 01's starred cases: definitions in specs/, the theorem in proofs/, no code.
#![tactic(auto)]
