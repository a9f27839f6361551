// The parts of several conditions, those spelled alike counted once: definitions in specs/, laws in proofs/, no functions.
#![tactic(auto)]

// A review has 1 to this many conditions, and at most this many differing parts, each with a table of its own.
pub const MOST_LINES: usize = 32;

pub const MOST_TABLES: usize = 128;
