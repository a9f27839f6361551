// Values of 32 bits: what the operators give.
#![tactic(auto)]

ghost use Rattle.std.specs.Prelude.{◌≡◌, ◌<◌};
ghost use Rattle.arithmetic.specs.Arithmetic.{apply, faults, given as givenBy};

use language::Operator;

// The quotient, signed and rounded toward zero. Of the least number by -1 it is the least number.
fn divide(a: u32, b: u32) -> u32
    requires { 0 < b }
    ensures { result ≡ apply Operator.Divide a b }
{
    let x = a.cast_signed();
    let y = b.cast_signed();
    x.wrapping_div(y).cast_unsigned()
}

// What the operator gives: nothing where it divides by zero, which is a fault.
pub fn apply_operator(o: Operator, a: u32, b: u32) -> Option<u32>
    ensures { result ≡ givenBy (faults o b) (apply o a b) }
{
    match o {
        Operator::Add => Some(a.wrapping_add(b)),
        Operator::Subtract => Some(a.wrapping_sub(b)),
        Operator::Multiply => Some(a.wrapping_mul(b)),
        Operator::Less => Some(u32::from(a.cast_signed() < b.cast_signed())),
        Operator::Equal => Some(u32::from(a == b)),
        Operator::Divide => {
            if b == 0 {
                return None;
            }
            Some(divide(a, b))
        }
    }
}
