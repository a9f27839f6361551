// The words for a slip.
ghost use Rattle.std.specs.Prelude.{◌++◌, length, ◌≤◌, ◌+◌};
ghost use Rattle.statement_writer.specs.Writing.{Put};
ghost use Rattle.slips.specs.Words.{quoted as quotedText, slip_words};

use crate::{MOST_NUMBER, Slip};

// The words for every slip have room in this many bytes.
pub const SLIP_ROOM: usize = 64;

// A number behind its sign or letter, quoted.
fn quoted(out: &mut [u8], at: usize, before: &[u8], v: u32) -> usize
    requires { at + length (quotedText before.now v) ≤ length out.old }
    ensures { Put out.old at (quotedText before.now v) out.new result }
{
    let k1 = statement_writer::word(out, at, b": `");
    let k2 = statement_writer::word(out, k1, before);
    let k3 = statement_writer::number(out, k2, v);
    if v == MOST_NUMBER {
        return statement_writer::word(out, k3, b"` or more");
    }
    statement_writer::word(out, k3, b"`")
}

// The same before further words.
fn outside(out: &mut [u8], at: usize, before: &[u8], v: u32, after: &[u8]) -> usize
    requires { at + length (quotedText before.now v ++ after.now) ≤ length out.old }
    ensures { Put out.old at (quotedText before.now v ++ after.now) out.new result }
{
    let k = quoted(out, at, before, v);
    statement_writer::word(out, k, after)
}

// A target, and the largest that the program has.
fn wrong_target(out: &mut [u8], at: usize, v: u32, n: u32) -> usize
    requires { at + length (slip_words (Slip.Target v n)) ≤ length out.old }
    ensures { Put out.old at (slip_words (Slip.Target v n)) out.new result }
{
    let k1 = quoted(out, at, b"", v);
    let k2 = statement_writer::word(out, k1, b" is outside 2 to ");
    statement_writer::number(out, k2, n)
}

// Puts the words for the slip at the position, and answers the position after them. The figures of ranges in them are text, as in the
// definitions.
pub fn write(out: &mut [u8], at: usize, slip: Slip) -> usize
    requires { at + length (slip_words slip) ≤ length out.old }
    ensures { Put out.old at (slip_words slip) out.new result }
{
    match slip {
        Slip::Nothing => at,
        Slip::ByteOrderMark => statement_writer::word(out, at, b": a byte order mark"),
        Slip::CarriageReturn => statement_writer::word(out, at, b": a carriage return"),
        Slip::Tab => statement_writer::word(out, at, b": a tab"),
        Slip::LineEnd => statement_writer::word(out, at, b": a line end"),
        Slip::Space => statement_writer::word(out, at, b": a space too many"),
        Slip::Brackets => statement_writer::word(out, at, b": superfluous brackets"),
        Slip::Early => statement_writer::word(out, at, b": it ends too early"),
        Slip::Variable(v) => outside(out, at, b"i", v, b" is outside i0 to i63"),
        Slip::Negative(v) => outside(out, at, b"-", v, b" is outside -2147483648 to 2147483647"),
        Slip::Number(v) => outside(out, at, b"", v, b" is outside 0 to 2147483647"),
        Slip::Target(v, n) => wrong_target(out, at, v, n),
    }
}
