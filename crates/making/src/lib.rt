// What a mark makes of the statement that it names.
#![tactic(auto)]

ghost use Rattle.std.specs.Prelude.{◌≡◌};
ghost use Rattle.lockstep.specs.Rules.{replace_operand, replace_in, replace_variable, replace as replaceStatement, reuse as reuseIn, makes as made_of};

use language::{Expression, Operand, Statement};
use marks::Mark;

// In each: the operand a for every use of the variable x.
fn replace_operand(x: u8, a: Operand, b: Operand) -> Operand
    ensures { result ≡ replace_operand x a b }
{
    if b == Operand::Variable(x) {
        return a;
    }
    b
}

fn replace_in(x: u8, a: Operand, e: Expression) -> Expression
    ensures { result ≡ replace_in x a e }
{
    match e {
        Expression::Single(b) => Expression::Single(replace_operand(x, a, b)),
        Expression::Binary(b, o, c) => {
            let left = replace_operand(x, a, b);
            let right = replace_operand(x, a, c);
            Expression::Binary(left, o, right)
        }
    }
}

fn replace_variable(x: u8, a: Operand, y: u8) -> u8
    ensures { result ≡ replace_variable x a y }
{
    match a {
        Operand::Variable(z) if x == y => z,
        Operand::Variable(_) | Operand::Constant(_) => y,
    }
}

fn replace(x: u8, a: Operand, i: Statement) -> Statement
    ensures { result ≡ replaceStatement x a i }
{
    match i {
        Statement::Write(y) => Statement::Write(replace_variable(x, a, y)),
        Statement::Assign(y, e) => Statement::Assign(y, replace_in(x, a, e)),
        Statement::Branch(y, n, m) => Statement::Branch(replace_variable(x, a, y), n, m),
        Statement::Read(_) | Statement::Skip => i,
    }
}

// An assignment of the variable t in place of an assignment.
fn reuse(t: u8, i: Statement) -> Statement
    ensures { result ≡ reuseIn t i }
{
    match i {
        Statement::Assign(z, _) => Statement::Assign(z, Expression::Single(Operand::Variable(t))),
        Statement::Read(_) | Statement::Write(_) | Statement::Branch(_, _, _) | Statement::Skip =>
            i,
    }
}

// What the mark makes of the statement.
pub fn makes(m: Mark, i: Statement) -> Statement
    ensures { result ≡ made_of m i }
{
    match m {
        Mark::Rm(_, _, _) => Statement::Skip,
        Mark::Rpl(_, x, a) => replace(x, a, i),
        Mark::Cse(_, t, _) => reuse(t, i),
    }
}
