// Runs of a program under a budget.
#![tactic(auto)]

ghost use Rattle.program.specs.Program.{WellFormed};
ghost use Rattle.program.specs.Reading.{statements, Held};
ghost use Rattle.machine.specs.Answer.{Answers};

use language::KEPT;
use machine::{Answer, Next, VALUES};
use pricing::KINDS;
use program::Program;

// The values are those after the last step where the answer is `Spent`, else the starting ones. The kept ones are those at the end where the
// run ended, else those of the start.
#[derive(Clone, Copy)]
pub struct Outcome {
    pub answer: Answer,
    pub values: [u32; VALUES],
    pub kept: [u32; KEPT],
}

// Runs the program for at most `budget` steps, each at its statement's price.
pub fn run(
    program: Program,
    start: [u32; VALUES],
    input: u32,
    budget: u32,
    table: [u32; KINDS],
) -> Outcome
    requires well_formed { WellFormed (statements program) }
    requires held { Held program }
    ensures { Answers table (statements program) start input budget result.answer result.values result.kept }
{
    let prices = pricing::prices_of(program, &table);
    let mut values = start;
    let mut at: u32 = 0;
    let mut steps: u32 = 0;
    let mut ticks: u64 = 0;
    while steps < budget {
        let i = at as usize;
        let e = program.entries[i];
        let next = dispatch::step(e, at, input, &mut values);
        steps += 1;
        ticks += prices[i] as u64;
        match next {
            Next::Goto(t) => {
                at = t;
            }
            Next::Finish(v) => {
                return Outcome {
                    answer: Answer::Ended(v.cast_signed(), steps, ticks),
                    values: start,
                    kept: machine::kept_of(values),
                };
            }
            Next::Fault(t) => {
                let number = t + 1;
                return Outcome {
                    answer: Answer::Fault(number, steps, ticks),
                    values: start,
                    kept: machine::kept_of(start),
                };
            }
        }
    }
    Outcome {
        answer: Answer::Spent(at + 1, ticks),
        values: values,
        kept: machine::kept_of(start),
    }
}
