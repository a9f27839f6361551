// What is printed after the steps of two runs side by side: the outcome of each, and that they agree.
#![tactic(auto)]

ghost use Rattle.std.specs.Prelude.{◌≤◌, length};
ghost use Rattle.closing.specs.Closing.{closing_room, RunAlike, TraceAlike, Closes};

use machine::VALUES;

// Runs both programs' texts, whose runs are known to be alike, and tells both outcomes and that they agree. Neither run is refused then.
pub fn write(
    out: &mut [u8],
    program: &[u8],
    new: &[u8],
    values: [u32; VALUES],
    input: u32,
    budget: u32,
) -> usize
    requires closing_room_in_bounds { closing_room ≤ length out.old }
    requires run_alike { RunAlike program.now new.now values input budget }
    requires trace_alike { TraceAlike program.now new.now values input }
    ensures { Closes program.now new.now values input budget out.old out.new result }
{
    let prices = pricing::ours();
    let given = run::run(program, values, input, budget, prices);
    let rewritten = run::run(new, values, input, budget, prices);
    let Ok(one) = given else {
        return 0;
    };
    let Ok(two) = rewritten else {
        return 0;
    };
    let kept = one.kept;
    let others = two.kept;
    let k1 = statement_writer::word(out, 0, b"given ");
    let k2 = answer_line::write(out, k1, one.answer, &kept);
    let k3 = statement_writer::word(out, k2, b"rewritten ");
    let k4 = answer_line::write(out, k3, two.answer, &others);
    statement_writer::word(out, k4, b"statements, outcome and live variables agree\n")
}
