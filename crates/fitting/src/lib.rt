// What a mark asks of the statement that it names: that it fits, and drops nothing that may fault.
#![tactic(auto)]

ghost use Rattle.std.specs.Prelude.{◌≡◌, ℕ};
ghost use Rattle.base.specs.Decides.{Decides};
ghost use Rattle.lockstep.specs.Rules.{IsVariable, Takes, IsBinary, Fits, NotZero, Safe, Droppable};

use language::{Expression, Operand, Operator, Statement};
use marks::Mark;

fn is_variable(a: Operand) -> bool
    ensures { Decides result (IsVariable a) }
{
    matches!(a, Operand::Variable(_))
}

// Whether the operand can stand for a variable that the statement uses.
fn takes(i: Statement, a: Operand) -> bool
    ensures { Decides result (Takes i a) }
{
    match i {
        Statement::Write(_) | Statement::Branch(_, _, _) => is_variable(a),
        Statement::Read(_) | Statement::Assign(_, _) | Statement::Skip => true,
    }
}

fn is_binary(e: Expression) -> bool
    ensures { Decides result (IsBinary e) }
{
    matches!(e, Expression::Binary(_, _, _))
}

// Whether the statement assigns the expression to some variable. By codes, here and in `fits`: with the derived `==` of statements and of
// expressions, whose contract is that of no named function, the proof didn't close.
fn assigns(i: Statement, e: Expression) -> bool
    ensures { Decides result ((z : ℕ) × (i ≡ Statement.Assign z e)) }
{
    codes::same_statement(i, Statement::Assign(codes::variable_of(i), e))
}

// Whether the mark fits the statement.
pub fn fits(m: Mark, i: Statement) -> bool
    ensures { Decides result (Fits m i) }
{
    match m {
        Mark::Rm(_, x, e) => codes::same_statement(i, Statement::Assign(x, e)),
        Mark::Rpl(_, x, a) => codes::shows(i, x) && takes(i, a),
        Mark::Cse(_, _, e) => assigns(i, e) && is_binary(e),
    }
}

// Whether the operand is a constant other than 0.
fn is_not_zero(b: Operand) -> bool
    ensures { Decides result (NotZero b) }
{
    match b {
        Operand::Variable(_) => false,
        Operand::Constant(n) => n != 0,
    }
}

// Whether the operator with this right operand can't fault.
fn is_safe(o: Operator, b: Operand) -> bool
    ensures { Decides result (Safe o b) }
{
    o != Operator::Divide || is_not_zero(b)
}

// Whether the mark drops nothing that may fault.
pub fn droppable(m: Mark) -> bool
    ensures { Decides result (Droppable m) }
{
    match m {
        Mark::Rm(_, _, Expression::Binary(_, o, b)) => is_safe(o, b),
        Mark::Rm(_, _, Expression::Single(_)) | Mark::Rpl(_, _, _) | Mark::Cse(_, _, _) => true,
    }
}
