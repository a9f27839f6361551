// The outcome of a run in words: a program and a start in, the bytes that are printed out.
#![tactic(auto)]

ghost use Rattle.std.specs.Prelude.{◌≤◌, ◌+◌, ◌*◌, length};
ghost use Rattle.language.specs.Spelling.{variables};
ghost use Rattle.statement_writer.specs.Writing.{Put};
ghost use Rattle.outcome.specs.Outcome.{value_lines, answer_text, value_line_room, outcome_room, Prints, RunPrints};

use answer_line::SPENT_ROOM;
use desk::Failure;
use language::KEPT;
use machine::{Answer, VALUES};
use refusals::Numbered;
use trace::VALUE_ROOM;

// The line of a value has room in this many bytes, and every outcome in this many.
const VALUE_LINE_ROOM: usize = VALUE_ROOM + 1;

pub const OUTCOME_ROOM: usize = SPENT_ROOM + VALUES * VALUE_LINE_ROOM;

// A line `i0 = 2` for each variable.
fn value_lines(out: &mut [u8], at: usize, values: &[u32; VALUES]) -> usize
    requires { at + variables * value_line_room ≤ length out.old }
    ensures { Put out.old at (value_lines variables values.now) out.new result }
{
    let mut to = at;
    for x in 0..VALUES {
        let k = trace::value(out, to, x as u8, values[x]);
        to = statement_writer::byte(out, k, 10);
    }
    to
}

// What a run answers, at the front of the lent bytes: its line, and with `spent` the values.
fn answer_text(out: &mut [u8], a: Answer, values: &[u32; VALUES], kept: &[u32; KEPT]) -> usize
    requires { outcome_room ≤ length out.old }
    ensures { Put out.old 0 (answer_text a values.now kept.now) out.new result × (result ≤ outcome_room) }
{
    let k = answer_line::write(out, 0, a, kept);
    match a {
        Answer::Ended(_, _, _) => k,
        Answer::Fault(_, _, _) => k,
        Answer::Spent(_, _) => value_lines(out, k, values),
    }
}

// Runs the program and tells how it went, at the front of the lent bytes.
fn run_outcome(
    out: &mut [u8],
    program: &[u8],
    values: [u32; VALUES],
    input: u32,
    budget: u32,
) -> Result<usize, Failure>
    requires { outcome_room ≤ length out.old }
    ensures { RunPrints program.now values input budget out.old out.new result }
{
    match run::run(program, values, input, budget, pricing::ours()) {
        Ok(ran) => {
            let left = ran.values;
            let kept = ran.kept;
            Ok(answer_text(out, ran.answer, &left, &kept))
        }
        Err(refusal) => {
            let n = refusal.number();
            let line = blame::line_of_number(program, n);
            Err(Failure::Refused(desk::refusals::refusal(out, 0, n, line)))
        }
    }
}

// Puts what is printed of the run of the program's text from the start's text at the front of the lent bytes, and answers its length; NoRoom:
// under OUTCOME_ROOM bytes are lent.
pub fn outcome(program: &[u8], start: &[u8], out: &mut [u8]) -> Result<usize, Failure>
    ensures { Prints program.now start.now out.old out.new result }
{
    if out.len() < OUTCOME_ROOM {
        return Err(Failure::NoRoom);
    }
    match start::read(start) {
        Ok(taken) => {
            let values = taken.values;
            run_outcome(out, program, values, taken.input, taken.budget)
        }
        Err(wrong) => Err(Failure::Refused(start_refusal::write(out, Some(wrong)))),
    }
}
