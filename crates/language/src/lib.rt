// The statement language: its types. No functions stand here.
#![tactic(auto)]

// Variables are i0 to i63.
pub const VARIABLES: u32 = 64;
// Variables i24 to i31 are kept from one pass to the next.
pub const FIRST_KEPT: usize = 24;

pub const KEPT: usize = 8;

// The largest statement number, and the largest constant.
pub const LARGEST: u64 = 2147483647;
// A number of 32 bits has at most this many digits, a constant's text this many bytes, and a variable's this many.
pub const NUMBER_DIGITS: usize = 10;

pub const CONSTANT_ROOM: usize = 1 + NUMBER_DIGITS;

pub const VARIABLE_ROOM: usize = 3;

#[derive(Clone, Copy, PartialEq, Eq, Debug)]
pub enum Operand {
    Variable(u8),
    Constant(u32),
}

#[derive(Clone, Copy, PartialEq, Eq, Debug)]
pub enum Operator {
    Add,
    Subtract,
    Multiply,
    Less,
    Equal,
    Divide,
}

#[derive(Clone, Copy, PartialEq, Eq, Debug)]
pub enum Expression {
    Single(Operand),
    Binary(Operand, Operator, Operand),
}

// The targets of a branch are statement numbers, counted from 1.
#[derive(Clone, Copy, PartialEq, Eq, Debug)]
pub enum Statement {
    Read(u8),
    Write(u8),
    Assign(u8, Expression),
    Branch(u8, u32, u32),
    Skip,
}
