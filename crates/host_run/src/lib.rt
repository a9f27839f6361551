// `run` for a host: the answer goes into the places that it lends, and the number is 0 or the refusal's.
#![tactic(auto)]

ghost use Rattle.host_run.specs.Places.{RunExported};

use language::KEPT;
use machine::{Answer, VALUES};
use pricing::KINDS;
use refusals::Numbered;

pub fn export(
    program: &[u8],
    values: &[u32; VALUES],
    input: u32,
    budget: u32,
    prices: &[u32; KINDS],
    ended: &mut u32,
    value: &mut i32,
    steps: &mut u32,
    statement: &mut u32,
    left: &mut [u32; VALUES],
    kept: &mut [u32; KEPT],
    ticks: &mut u64,
) -> u8
    ensures { RunExported prices.now program.now values.now input budget result (record { ended = ended.old; value = value.old; steps = steps.old; statement = statement.old; left = left.old; kept = kept.old; ticks = ticks.old }) (record { ended = ended.new; value = value.new; steps = steps.new; statement = statement.new; left = left.new; kept = kept.new; ticks = ticks.new }) }
{
    let outcome = match run::run(program, *values, input, budget, *prices) {
        Ok(outcome) => outcome,
        Err(refusal) => {
            return refusal.number();
        }
    };
    let after = outcome.values;
    let eight = outcome.kept;
    match outcome.answer {
        Answer::Ended(v, k, t) => {
            *ended = 1;
            *value = v;
            *steps = k;
            *kept = eight;
            *ticks = t;
        }
        Answer::Fault(n, k, t) => {
            *ended = 2;
            *statement = n;
            *steps = k;
            *ticks = t;
        }
        Answer::Spent(n, t) => {
            *ended = 0;
            *statement = n;
            *left = after;
            *ticks = t;
        }
    }
    0
}
