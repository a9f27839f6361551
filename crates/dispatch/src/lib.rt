// One step by an entry's numbers, without its statement: what it does is what the statement does.
#![tactic(auto)]

ghost use Rattle.std.specs.Prelude.{◌≡◌, ◌<◌, eqb};
ghost use Rattle.language.specs.Spelling.{variables, ValidOperand, Valid};
ghost use Rattle.language.specs.declared.Expression.{Expression};
ghost use Rattle.program.specs.Program.{most, Targets};
ghost use Rattle.machine.specs.Machine.{operand_value, value, stored, perform};
ghost use Rattle.machine.specs.Answer.{state_of};
ghost use Rattle.encoding.specs.Encoding.{operand_in, left_in, right_in, statement_in};

use encoding::Entry;
use language::Operator;
use machine::{Next, VALUES};

// The value of an operand. A variable's is read where it is a constant too, so that no jump depends on which it is.
fn load(values: &[u32; VALUES], constant: u32, w: u32) -> u32
    requires { ValidOperand (operand_in (eqb constant 1) w) }
    ensures { result ≡ operand_value values.now (operand_in (eqb constant 1) w) }
{
    let i = (w % language::VARIABLES) as usize;
    let v = values[i];
    if constant == 1 { w } else { v }
}

fn left(e: Entry, values: &[u32; VALUES]) -> u32
    requires { ValidOperand (left_in e) }
    ensures { result ≡ operand_value values.now (left_in e) }
{
    load(values, e.head / 16 % 2, e.first)
}

fn right(e: Entry, values: &[u32; VALUES]) -> u32
    requires { ValidOperand (right_in e) }
    ensures { result ≡ operand_value values.now (right_in e) }
{
    load(values, e.head / 32 % 2, e.second)
}

// Stores what the operator gives on the entry's operands in x. Each kind calls it with its own operator, so that a step goes by one code.
fn operate(o: Operator, e: Entry, x: usize, at: u32, values: &mut [u32; VALUES]) -> Next
    requires { (x < variables) × (at < most) × ValidOperand (left_in e) × ValidOperand (right_in e) }
    ensures { state_of result values.new ≡ stored (value values.old (Expression.Binary (left_in e) o (right_in e))) x at values.old }
{
    let a = left(e, &*values);
    let b = right(e, &*values);
    let given = arithmetic::apply_operator(o, a, b);
    match given {
        Some(v) => {
            values[x] = v;
            Next::Goto(at + 1)
        }
        None => Next::Fault(at),
    }
}

// Performs the statement that the entry holds, which stands at the place `at`.
pub fn step(e: Entry, at: u32, input: u32, values: &mut [u32; VALUES]) -> Next
    requires valid { Valid (statement_in e) }
    requires targets { Targets most (statement_in e) }
    requires at_lt_most { at < most }
    ensures { state_of result values.new ≡ perform (statement_in e) input at values.old }
{
    let head = e.head;
    let x = (head / 64 % 256) as usize;
    match head % 16 {
        0 => {
            values[x] = input;
            Next::Goto(at + 1)
        }
        1 => Next::Finish(values[x]),
        2 => Next::Goto(at + 1),
        3 => {
            if values[x] == 0 {
                Next::Goto(e.second - 1)
            } else {
                Next::Goto(e.first - 1)
            }
        }
        4 => {
            let a = left(e, &*values);
            values[x] = a;
            Next::Goto(at + 1)
        }
        5 => operate(Operator::Add, e, x, at, values),
        6 => operate(Operator::Subtract, e, x, at, values),
        7 => operate(Operator::Multiply, e, x, at, values),
        8 => operate(Operator::Less, e, x, at, values),
        9 => operate(Operator::Equal, e, x, at, values),
        _ => operate(Operator::Divide, e, x, at, values),
    }
}
