// The truth of a condition at a place of a program: definitions in specs/, no code.
#![tactic(auto)]
