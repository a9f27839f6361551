// Conditions: definitions in specs/, laws in proofs/, no functions.
#![tactic(auto)]

use language::{Expression, Statement};

// A condition's text has at most this many bytes, and the condition at most this many parts.
pub const MOST_BYTES: usize = 1024;

pub const MOST_PARTS: usize = 64;

// A part as a word: its operator's code, then from these on the number of its left operand's part and the places of its text's first byte
// and of the byte after its last. Each is below FIELD.
pub const LEFT: u64 = 256;

pub const START: u64 = LEFT * FIELD;

pub const END: u64 = START * FIELD;

pub const FIELD: u64 = 65536;

#[derive(Clone, Copy)]
pub enum Atom {
    True,
    False,
    Entry,
    Exit,
    Node(u32),
    Stmt(Statement),
    Def(u8),
    Use(u8),
    Trans(Expression),
}
