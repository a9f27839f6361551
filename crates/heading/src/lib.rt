// What is printed before the steps of two runs side by side: the refusal in words, or the counts of the marks and the line over the columns.
#![tactic(auto)]

ghost use Rattle.std.specs.Prelude.{◌≤◌, length};
ghost use Rattle.statement_writer.specs.Writing.{Put};
ghost use Rattle.heading.specs.Heading.{heading_text, heading_room, Heads};

use judge::TEXT_BYTES;
use refusals::Numbered;
use run::{BUDGET_NUMBER, MOST_STEPS};

// Every heading has room in this many bytes.
const HEADING_ROOM: usize = 160;

// Refused and Judged: the number of bytes of the heading, and of the rewritten program's text. NoRoom: too few bytes are lent.
#[derive(Clone, Copy)]
pub enum Heading {
    Refused(usize),
    Judged(usize, usize),
    NoRoom,
}

// The counts, and the line over the columns.
fn judged(out: &mut [u8], count: u32, accepted: u32) -> usize
    requires { heading_room ≤ length out.old }
    ensures { Put out.old 0 (heading_text count accepted) out.new result }
{
    let k = report::write_counts(out, count, accepted);
    statement_writer::word(
        out,
        k,
        b"   step  line  given                             rewritten                         differs  given        rewritten\n",
    )
}

// Judges the marks, and puts the rewritten program's text at the front of `new` and the heading at the front of `out`.
pub fn write(program: &[u8], marks: &[u8], budget: u32, new: &mut [u8], out: &mut [u8]) -> Heading
    ensures { Heads program.now marks.now budget new.old new.new out.old out.new result }
{
    if out.len() < HEADING_ROOM {
        return Heading::NoRoom;
    }
    if new.len() < TEXT_BYTES {
        return Heading::NoRoom;
    }
    if MOST_STEPS < budget {
        return Heading::Refused(desk::refusals::refusal(out, 0, BUDGET_NUMBER, 0));
    }
    let mut verdicts = judge::verdict_buffer();
    let answer = judge::judge(program, marks, &mut verdicts, new);
    match answer {
        Err(refusal) => {
            let n = refusal.number();
            let line = refusal_line::line_of_number(program, marks, n);
            Heading::Refused(desk::refusals::refusal(out, 0, n, line))
        }
        Ok(told) => Heading::Judged(judged(out, told.marks, told.accepted), told.bytes as usize),
    }
}
