// A call, `force`: what a driver can force on a program, however the unit answers. It takes any bytes, and has no `requires`.
#![tactic(auto)]

ghost use Rattle.std.specs.Prelude.{◌≡◌, ◌≤◌, length};
ghost use Rattle.program.specs.Program.{most};
ghost use Rattle.force.specs.Force.{blank, number, ForceAnswers, Forces};

use calls::Refusal;
use driver_reader::DRIVER_NUMBER;
use program::MOST;
use refusals::Numbered;
use tabulate::{Filled, TABLE_WORDS};

// Why the call is refused: as `tabulate`, or the driver's list is misspelled or names a variable twice.
#[derive(Clone, Copy)]
pub enum TextRefusal {
    Driver,
    Condition(condition_reader::Refusal),
}

impl Numbered for TextRefusal {
    ghost number = { number };

    fn number(self) -> u8 {
        match self {
            TextRefusal::Driver => DRIVER_NUMBER,
            TextRefusal::Condition(refusal) => refusal.number(),
        }
    }
}

// For each statement the least number of steps within which the driver is sure of the condition, 4294967295 where he can't force it, and the
// arm that is to be taken there: 0 none, 1 `goto`, 2 `else`. Zeros past the statements.
#[derive(Clone, Copy)]
pub struct Forced {
    pub filled: Filled,
    pub number: [u32; MOST],
    pub arm: [u8; MOST],
}

fn blank_numbers() -> [u32; MOST]
    ensures { result ≡ blank.numbers }
{
    [0; MOST]
}

fn blank_arms() -> [u8; MOST]
    ensures { result ≡ blank.arms }
{
    [0; MOST]
}

// Fills the table as `tabulate` does, and tells the numbers and the arms in `numbers` and `arms`, where entries past the statements are kept.
pub fn fill(
    program: &[u8],
    driver: &[u8],
    condition: &[u8],
    table: &mut [u64],
    numbers: &mut [u32],
    arms: &mut [u8],
) -> Result<Filled, Refusal<TextRefusal>>
    requires { (most ≤ length numbers.old) × (most ≤ length arms.old) }
    ensures { ForceAnswers program.now driver.now condition.now table.old table.new result (record { numbers = numbers.old; arms = arms.old }) (record { numbers = numbers.new; arms = arms.new }) }
{
    if table.len() < TABLE_WORDS {
        return Err(Refusal::Room);
    }
    let p = program::read(program)?;
    let mut named = bits::blank();
    if !driver_reader::read(driver, &mut named) {
        return Err(Refusal::Text(TextRefusal::Driver));
    }
    let c = condition_reader::read(condition).map_err(|refusal| {
        Refusal::Text(TextRefusal::Condition(refusal))
    })?;
    let mut flow = flow::blank();
    let summary = tabulate::fill(p, condition, c.words, c.count, &mut flow, table);
    let count = c.count as usize;
    let goal = table::row_of(&*table, count - 1);
    arms::of(p, &flow, &named, &goal, numbers, arms);
    Ok(Filled {
        parts: c.count,
        satisfied: summary.satisfied,
        first: summary.first,
    })
}

// Fills the table as `tabulate` does, and tells the numbers and the arms.
pub fn force(
    program: &[u8],
    driver: &[u8],
    condition: &[u8],
    table: &mut [u64],
) -> Result<Forced, Refusal<TextRefusal>>
    ensures { Forces program.now driver.now condition.now table.old table.new result }
{
    let mut number = blank_numbers();
    let mut arm = blank_arms();
    let filled = fill(program, driver, condition, table, &mut number, &mut arm)?;
    Ok(Forced {
        filled,
        number,
        arm,
    })
}
