// Definitions and laws that every crate says again. No code stands here.
#![tactic(auto)]
