// Statements compared by a code of four numbers, and the variables that a statement shows as used.
#![tactic(auto)]

ghost use Rattle.std.specs.Prelude.{◌≡◌, length};
ghost use Rattle.base.specs.Decides.{Decides};
ghost use Rattle.truth.specs.Truth.{InOperand, In, Shows};
ghost use Rattle.codes.specs.Codes.{operand_code, operator_code, assign_code, statement_code, code_word_count, code_words};

use language::{Expression, Operand, Operator, Statement};

// A statement as numbers.
#[derive(Clone, Copy, PartialEq, Eq)]
pub struct Code {
    pub kind: u64,
    pub first: u64,
    pub second: u64,
    pub third: u64,
}

// The numbers of a code.
pub const CODE_WORDS: usize = 4;

fn operand_code(a: Operand) -> u64
    ensures { result ≡ operand_code a }
{
    match a {
        Operand::Variable(x) => 2 * (x as u64),
        Operand::Constant(n) => 2 * (n as u64) + 1,
    }
}

fn operator_code(o: Operator) -> u64
    ensures { result ≡ operator_code o }
{
    match o {
        Operator::Add => 5,
        Operator::Subtract => 6,
        Operator::Multiply => 7,
        Operator::Less => 8,
        Operator::Equal => 9,
        Operator::Divide => 10,
    }
}

fn assign_code(x: u8, e: Expression) -> Code
    ensures { result ≡ assign_code x e }
{
    match e {
        Expression::Single(a) => Code {
            kind: 4,
            first: x as u64,
            second: operand_code(a),
            third: 0,
        },
        Expression::Binary(a, o, b) => Code {
            kind: operator_code(o),
            first: x as u64,
            second: operand_code(a),
            third: operand_code(b),
        },
    }
}

pub fn statement_code(s: Statement) -> Code
    ensures { result ≡ statement_code s }
{
    match s {
        Statement::Read(x) => Code {
            kind: 0,
            first: x as u64,
            second: 0,
            third: 0,
        },
        Statement::Write(x) => Code {
            kind: 1,
            first: x as u64,
            second: 0,
            third: 0,
        },
        Statement::Skip => Code {
            kind: 2,
            first: 0,
            second: 0,
            third: 0,
        },
        Statement::Branch(x, n, m) => Code {
            kind: 3,
            first: x as u64,
            second: n as u64,
            third: m as u64,
        },
        Statement::Assign(x, e) => assign_code(x, e),
    }
}

// The code as words.
pub fn words_of(c: Code) -> [u64; CODE_WORDS]
    ensures { result ≡ code_words c }
{
    [c.kind, c.first, c.second, c.third]
}

// Whether the words are those of the code. Most differ in the variable, so that is looked at first.
pub fn same_words(c: Code, words: &[u64]) -> bool
    requires { length words.now ≡ code_word_count }
    ensures { Decides result (words.now ≡ code_words c) }
{
    words[1] == c.first && words[0] == c.kind && words[2] == c.second && words[3] == c.third
}

// The variable that a statement names first, or 0: the first number of its code. Most statements differ there.
pub fn variable_of(s: Statement) -> u8
    ensures { result ≡ (statement_code s).first }
{
    match s {
        Statement::Read(x) => x,
        Statement::Write(x) => x,
        Statement::Skip => 0,
        Statement::Branch(x, _, _) => x,
        Statement::Assign(x, _) => x,
    }
}

pub fn same_statement(s: Statement, t: Statement) -> bool
    ensures { Decides result (s ≡ t) }
{
    if variable_of(s) != variable_of(t) {
        return false;
    }
    let a = statement_code(s);
    let b = statement_code(t);
    a == b
}

fn in_operand(x: u8, a: Operand) -> bool
    ensures { Decides result (InOperand x a) }
{
    match a {
        Operand::Variable(y) => x == y,
        Operand::Constant(_) => false,
    }
}

// Whether x is a variable of the expression.
fn in_expression(x: u8, e: Expression) -> bool
    ensures { Decides result (In x e) }
{
    match e {
        Expression::Single(a) => in_operand(x, a),
        Expression::Binary(a, _, b) => in_operand(x, a) || in_operand(x, b),
    }
}

// Whether the text of the statement shows the variable as used.
pub fn shows(s: Statement, x: u8) -> bool
    ensures { Decides result (Shows s x) }
{
    match s {
        Statement::Read(_) => false,
        Statement::Write(y) => x == y,
        Statement::Assign(_, e) => in_expression(x, e),
        Statement::Branch(y, _, _) => x == y,
        Statement::Skip => false,
    }
}
