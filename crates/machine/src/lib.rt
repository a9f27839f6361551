// The machine: one step, and what a run answers.
#![tactic(auto)]

ghost use Rattle.std.specs.Prelude.{◌≡◌, ◌<◌};
ghost use Rattle.language.specs.Spelling.{ValidOperand, ValidExpression, Valid};
ghost use Rattle.program.specs.Program.{most, Targets};
ghost use Rattle.language.specs.Kept.{kept_of};
ghost use Rattle.machine.specs.Machine.{operand_value, value, perform};
ghost use Rattle.machine.specs.Answer.{state_of};

use language::{Expression, FIRST_KEPT, KEPT, Operand, Statement};

// One value for each variable.
pub const VALUES: usize = language::VARIABLES as usize;

// Where a step leads: before the statement at a place, out of the program with a value, or to a fault of the statement at a place.
#[derive(Clone, Copy)]
pub enum Next {
    Goto(u32),
    Finish(u32),
    Fault(u32),
}

// Ended: the value, signed, and the steps. Fault: the number of the statement that divides by zero, and the steps, that one counted. Spent: the
// number of the statement that would be next. Last in each: the ticks of the steps taken.
#[derive(Clone, Copy)]
pub enum Answer {
    Ended(i32, u32, u64),
    Fault(u32, u32, u64),
    Spent(u32, u64),
}

fn load(values: &[u32; VALUES], o: Operand) -> u32
    requires { ValidOperand o }
    ensures { result ≡ operand_value values.now o }
{
    match o {
        Operand::Variable(x) => {
            let i = x as usize;
            values[i]
        }
        Operand::Constant(n) => n,
    }
}

fn evaluate(values: &[u32; VALUES], e: Expression) -> Option<u32>
    requires { ValidExpression e }
    ensures { result ≡ value values.now e }
{
    match e {
        Expression::Single(a) => Some(load(values, a)),
        Expression::Binary(a, o, b) => {
            let x = load(values, a);
            let y = load(values, b);
            arithmetic::apply_operator(o, x, y)
        }
    }
}

// Performs the statement s, which stands at the place `at`.
pub fn step(s: Statement, at: u32, input: u32, values: &mut [u32; VALUES]) -> Next
    requires valid { Valid s }
    requires targets { Targets most s }
    requires at_lt_most { at < most }
    ensures { state_of result values.new ≡ perform s input at values.old }
{
    match s {
        Statement::Read(x) => {
            let i = x as usize;
            values[i] = input;
            Next::Goto(at + 1)
        }
        Statement::Write(x) => {
            let i = x as usize;
            Next::Finish(values[i])
        }
        Statement::Assign(x, e) => {
            let given = evaluate(&*values, e);
            match given {
                Some(v) => {
                    let i = x as usize;
                    values[i] = v;
                    Next::Goto(at + 1)
                }
                None => Next::Fault(at),
            }
        }
        Statement::Branch(x, n, m) => {
            let i = x as usize;
            if values[i] == 0 {
                Next::Goto(m - 1)
            } else {
                Next::Goto(n - 1)
            }
        }
        Statement::Skip => Next::Goto(at + 1),
    }
}

// The values of the kept variables.
pub fn kept_of(values: [u32; VALUES]) -> [u32; KEPT]
    ensures { result ≡ kept_of values }
{
    let mut kept = [0; KEPT];
    kept.copy_from_slice(&values[FIRST_KEPT..FIRST_KEPT + KEPT]);
    kept
}
