// Statements in three numbers, as a program's value holds them, and taken back.
#![tactic(auto)]

ghost use Rattle.std.specs.Prelude.{◌≡◌, ◌<◌, ◌-◌};
ghost use Rattle.encoding.specs.Encoding.{Packed, operand_in, operator_in, is_constant, statement_in};

use language::{Expression, Operand, Operator, Statement};

// The head: the kind in four bits, a bit for each operand that is a constant, then the variable. Behind it the operands or the targets.
#[derive(Clone, Copy)]
pub struct Entry {
    pub head: u32,
    pub first: u32,
    pub second: u32,
}

fn operand_of(constant: bool, w: u32) -> Operand
    ensures { result ≡ operand_in constant w }
{
    if constant {
        Operand::Constant(w)
    } else {
        Operand::Variable((w % 256) as u8)
    }
}

fn operator_of(kind: u32) -> Operator
    requires { 4 < kind }
    ensures { result ≡ operator_in (kind - 5) }
{
    match kind {
        5 => Operator::Add,
        6 => Operator::Subtract,
        7 => Operator::Multiply,
        8 => Operator::Less,
        9 => Operator::Equal,
        _ => Operator::Divide,
    }
}

// The statement that an entry holds. By name and not by `From`: the name says which of the two is meant, at each of its callers.
#[tactic(auto, unfolding(crate::specs::Encoding::statement_in))]
pub fn statement_of(e: Entry) -> Statement
    ensures { result ≡ statement_in e }
{
    let head = e.head;
    let first = e.first;
    let second = e.second;
    let kind = head % 16;
    let x = (head / 64 % 256) as u8;
    match kind {
        0 => Statement::Read(x),
        1 => Statement::Write(x),
        2 => Statement::Skip,
        3 => Statement::Branch(x, first, second),
        4 => {
            let a = operand_of(head / 16 % 2 == 1, first);
            Statement::Assign(x, Expression::Single(a))
        }
        _ => {
            let a = operand_of(head / 16 % 2 == 1, first);
            let b = operand_of(head / 32 % 2 == 1, second);
            Statement::Assign(x, Expression::Binary(a, operator_of(kind), b))
        }
    }
}

fn is_constant(a: Operand) -> bool
    ensures { result ≡ is_constant a }
{
    matches!(a, Operand::Constant(_))
}

// The number of a variable or a constant.
fn word_of(a: Operand) -> u32
    ensures { operand_in (is_constant a) result ≡ a }
{
    match a {
        Operand::Variable(x) => u32::from(x),
        Operand::Constant(n) => n,
    }
}

fn kind_of(o: Operator) -> u32
    ensures { (4 < result) × (result < 16) × (operator_in (result - 5) ≡ o) }
{
    match o {
        Operator::Add => 5,
        Operator::Subtract => 6,
        Operator::Multiply => 7,
        Operator::Less => 8,
        Operator::Equal => 9,
        Operator::Divide => 10,
    }
}

// The head of a kind, whether its operands are constants, and a variable.
fn pack(kind: u32, a: bool, b: bool, x: u8) -> u32
    requires { kind < 16 }
    ensures { Packed result kind a b x }
{
    kind + 16 * u32::from(a) + 32 * u32::from(b) + 64 * u32::from(x)
}

// The entry that holds the statement.
pub fn entry_of(s: Statement) -> Entry
    ensures { statement_in result ≡ s }
{
    match s {
        Statement::Read(x) => Entry {
            head: pack(0, false, false, x),
            first: 0,
            second: 0,
        },
        Statement::Write(x) => Entry {
            head: pack(1, false, false, x),
            first: 0,
            second: 0,
        },
        Statement::Skip => Entry {
            head: 2,
            first: 0,
            second: 0,
        },
        Statement::Branch(x, n, m) => Entry {
            head: pack(3, false, false, x),
            first: n,
            second: m,
        },
        Statement::Assign(x, e) => match e {
            Expression::Single(a) => Entry {
                head: pack(4, is_constant(a), false, x),
                first: word_of(a),
                second: 0,
            },
            Expression::Binary(a, o, b) => Entry {
                head: pack(kind_of(o), is_constant(a), is_constant(b), x),
                first: word_of(a),
                second: word_of(b),
            },
        },
    }
}
