// Marks: the rewrites that an optimiser proposes, read from any bytes with refusals 9 and 10.
#![tactic(auto)]

ghost use Rattle.std.specs.Prelude.{◌≡◌};
ghost use Rattle.marks.specs.Reading.{number};

use language::{Expression, Operand};
use refusals::Numbered;

pub mod read;

// A list has at most this many marks.
pub const MOST: usize = 1024;

// The statement's number, the variable, and the expression or the operand.
#[derive(Clone, Copy)]
pub enum Mark {
    Rm(u32, u8, Expression),
    Rpl(u32, u8, Operand),
    Cse(u32, u8, Expression),
}

// The refusals of a list's text.
#[derive(Clone, Copy)]
pub enum Refusal {
    Misspelled,
    LineCount,
}

impl Numbered for Refusal {
    ghost number = { number };

    fn number(self) -> u8 {
        match self {
            Refusal::Misspelled => 9,
            Refusal::LineCount => 10,
        }
    }
}
