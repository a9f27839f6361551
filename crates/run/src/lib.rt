// A call: runs the program that a text spells, from given values, under a budget. It takes any bytes, and has no `requires`.
#![tactic(auto)]

ghost use Rattle.std.specs.Prelude.{◌≡◌};
ghost use Rattle.run.specs.Run.{number, RunAnswers};

use execution::Outcome;
use machine::VALUES;
use pricing::KINDS;
use refusals::Numbered;

// A run takes at most this many steps.
pub const MOST_STEPS: u32 = 1000000;
// The refusal of a larger budget.
pub const BUDGET_NUMBER: u8 = 15;

// Why a run is refused: its budget is larger than it may be, or the program's text isn't taken.
#[derive(Clone, Copy)]
pub enum Refusal {
    Budget,
    Program(program::Refusal),
}

impl Numbered for Refusal {
    ghost number = { number };

    fn number(self) -> u8 {
        match self {
            Refusal::Budget => BUDGET_NUMBER,
            Refusal::Program(refusal) => refusal.number(),
        }
    }
}

impl From<program::Refusal> for Refusal {
    ghost use Rattle.std.specs.Prelude.{◌≡◌};
    ghost use Rattle.run.specs.declared.Refusal.TheVariants.{Program};

    ghost from_gives = { λ refusal given. given ≡ Program refusal };

    fn from(refusal: program::Refusal) -> Refusal {
        Refusal::Program(refusal)
    }
}

// Runs the program that the text spells, from the values and the input, for at most `budget` steps, each at the price in force under the table.
pub fn run(
    program: &[u8],
    values: [u32; VALUES],
    input: u32,
    budget: u32,
    prices: [u32; KINDS],
) -> Result<Outcome, Refusal>
    ensures { RunAnswers prices program.now values input budget result }
{
    if MOST_STEPS < budget {
        return Err(Refusal::Budget);
    }
    let read = program::read(program)?;
    Ok(execution::run(read, values, input, budget, pricing::in_force(prices)))
}
