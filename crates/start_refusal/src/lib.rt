// The refusal of a start, in words.
#![tactic(auto)]

ghost use Rattle.std.specs.Prelude.{◌≤◌, ◌+◌, length};
ghost use Rattle.statement_writer.specs.Writing.{Put};
ghost use Rattle.start_refusal.specs.StartRefusal.{or_named, line_range, start_words, refusal_text, named_room, range_room, words_room, start_room};

use start::Wrong;

// From line 3 on it may have a variable.
fn or_named(out: &mut [u8], at: usize, n: u32) -> usize
    requires { at + named_room ≤ length out.old }
    ensures { Put out.old at (or_named n) out.new result × (result ≤ at + named_room) }
{
    if n == 1 {
        return at;
    }
    statement_writer::word(out, at, b", alone or behind a later variable: i13 = 40")
}

// What line n of a start has to be.
fn line_range(out: &mut [u8], at: usize, n: u32) -> usize
    requires { at + range_room ≤ length out.old }
    ensures { Put out.old at (line_range n) out.new result × (result ≤ at + range_room) }
{
    if n == 2 {
        return statement_writer::word(out, at, b" isn't a whole number from 0 to 1000000");
    }
    let k = statement_writer::word(
        out,
        at,
        b" isn't a whole number from -2147483648 to 2147483647",
    );
    or_named(out, k, n)
}

// What is wrong with a start. The figures in the words are `start::FEWEST` and `start::MOST`, as text.
fn words(out: &mut [u8], at: usize, wrong: Wrong) -> usize
    requires { at + words_room ≤ length out.old }
    ensures { Put out.old at (start_words wrong) out.new result × (result ≤ at + words_room) }
{
    match wrong {
        Wrong::Few => statement_writer::word(out, at, b"under 2 lines"),
        Wrong::Many => statement_writer::word(out, at, b"over 66 lines"),
        Wrong::Line(n) => {
            let k1 = statement_writer::word(out, at, b"line ");
            let k2 = statement_writer::number(out, k1, n);
            line_range(out, k2, n)
        }
        Wrong::Unended(n) => {
            let k1 = statement_writer::word(out, at, b"line ");
            let k2 = statement_writer::number(out, k1, n);
            statement_writer::word(out, k2, b" lacks its line end, byte 10")
        }
    }
}

// Puts the refusal at the front of the lent bytes, and answers its length. Of a start that isn't wrong nothing is said in its line.
pub fn write(out: &mut [u8], wrong: Option<Wrong>) -> usize
    requires { start_room ≤ length out.old }
    ensures { Put out.old 0 (refusal_text wrong) out.new result × (result ≤ start_room) }
{
    let k1 = statement_writer::word(out, 0, b"refused start\nthe start: ");
    match wrong {
        Some(wrong) => {
            let k2 = words(out, k1, wrong);
            statement_writer::byte(out, k2, 10)
        }
        None => statement_writer::byte(out, k1, 10),
    }
}
