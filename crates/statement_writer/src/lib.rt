// Writers: each puts a text at a position of lent bytes, and answers the position after it. No `Display`: room is asked for, so that no write fails.
#![tactic(auto)]

ghost use Rattle.std.specs.Prelude.{[], ◌∷◌, ◌++◌, ◌≡◌, length, ◌≤◌, ◌+◌};
ghost use Rattle.language.specs.Spelling.{digits, spell_constant, spell_variable, spell_operand, spell_operator, spell_expression, spell};
ghost use Rattle.statement_writer.specs.Writing.{Put};

use language::{Expression, Operand, Operator, Statement};

pub fn byte(out: &mut [u8], at: usize, b: u8) -> usize
    requires { at + 1 ≤ length out.old }
    ensures { Put out.old at (b ∷ []) out.new result }
{
    out[at] = b;
    at + 1
}

pub fn word(out: &mut [u8], at: usize, w: &[u8]) -> usize
    requires { at + length w.now ≤ length out.old }
    ensures { Put out.old at w.now out.new result }
{
    for i in 0..w.len() {
        out[at + i] = w[i];
    }
    at + w.len()
}

// In decimal, without leading zeros.
pub fn number(out: &mut [u8], at: usize, n: u32) -> usize
    requires { at + length (digits n) ≤ length out.old }
    ensures { Put out.old at (digits n) out.new result }
{
    if n < 10 {
        byte(out, at, b'0' + n as u8)
    } else {
        let k = number(out, at, n / 10);
        byte(out, k, b'0' + (n % 10) as u8)
    }
}

// The number that the 32 bits stand for.
pub fn constant(out: &mut [u8], at: usize, n: u32) -> usize
    requires { at + length (spell_constant n) ≤ length out.old }
    ensures { Put out.old at (spell_constant n) out.new result }
{
    let v = n.cast_signed();
    let k = if v < 0 { byte(out, at, b'-') } else { at };
    number(out, k, v.unsigned_abs())
}

pub fn variable(out: &mut [u8], at: usize, x: u8) -> usize
    requires { at + length (spell_variable x) ≤ length out.old }
    ensures { Put out.old at (spell_variable x) out.new result }
{
    let k = byte(out, at, b'i');
    number(out, k, x as u32)
}

pub fn operand(out: &mut [u8], at: usize, a: Operand) -> usize
    requires { at + length (spell_operand a) ≤ length out.old }
    ensures { Put out.old at (spell_operand a) out.new result }
{
    match a {
        Operand::Variable(x) => variable(out, at, x),
        Operand::Constant(n) => constant(out, at, n),
    }
}

// No `From`, which would have to stand in `language`, where no functions are.
fn operator_byte(o: Operator) -> u8
    ensures { result ≡ spell_operator o }
{
    match o {
        Operator::Add => b'+',
        Operator::Subtract => b'-',
        Operator::Multiply => b'*',
        Operator::Less => b'<',
        Operator::Equal => b'=',
        Operator::Divide => b'/',
    }
}

pub fn expression(out: &mut [u8], at: usize, e: Expression) -> usize
    requires { at + length (spell_expression e) ≤ length out.old }
    ensures { Put out.old at (spell_expression e) out.new result }
{
    match e {
        Expression::Single(a) => operand(out, at, a),
        Expression::Binary(a, o, b) => {
            let k1 = operand(out, at, a);
            let k2 = byte(out, k1, b' ');
            let k3 = byte(out, k2, operator_byte(o));
            let k4 = byte(out, k3, b' ');
            operand(out, k4, b)
        }
    }
}

pub fn statement(out: &mut [u8], at: usize, s: Statement) -> usize
    requires { at + length (spell s) ≤ length out.old }
    ensures { Put out.old at (spell s) out.new result }
{
    match s {
        Statement::Read(x) => {
            let k = word(out, at, b"read ");
            variable(out, k, x)
        }
        Statement::Write(x) => {
            let k = word(out, at, b"write ");
            variable(out, k, x)
        }
        Statement::Assign(x, e) => {
            let k1 = variable(out, at, x);
            let k2 = word(out, k1, b" := ");
            expression(out, k2, e)
        }
        Statement::Branch(x, n, m) => {
            let k1 = word(out, at, b"if ");
            let k2 = variable(out, k1, x);
            let k3 = word(out, k2, b" goto ");
            let k4 = number(out, k3, n);
            let k5 = word(out, k4, b" else ");
            number(out, k5, m)
        }
        Statement::Skip => word(out, at, b"skip"),
    }
}

pub fn line(out: &mut [u8], at: usize, s: Statement) -> usize
    requires { at + length (spell s ++ 10 ∷ []) ≤ length out.old }
    ensures { Put out.old at (spell s ++ 10 ∷ []) out.new result }
{
    let k = statement(out, at, s);
    byte(out, k, 10)
}
