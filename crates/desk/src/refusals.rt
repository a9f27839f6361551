// Refusals in words.
ghost use Rattle.std.specs.Prelude.{◌++◌, length, ◌≤◌, ◌+◌};
ghost use Rattle.language.specs.Spelling.{digits};
ghost use Rattle.statement_writer.specs.Writing.{Put};
ghost use Rattle.desk.specs.Refusals.{refusal_words, refusal_text};

// Every refusal has room in this many bytes.
pub const REFUSAL_ROOM: usize = 128;

// A number within a text: that of a line, or of a byte.
fn on_line(out: &mut [u8], at: usize, before: &[u8], line: u32, after: &[u8]) -> usize
    requires { at + length (before.now ++ (digits line ++ after.now)) ≤ length out.old }
    ensures { Put out.old at (before.now ++ (digits line ++ after.now)) out.new result }
{
    let k1 = statement_writer::word(out, at, before);
    let k2 = statement_writer::number(out, k1, line);
    statement_writer::word(out, k2, after)
}

// The words of the refusal with number n: C and the documents number the refusals of all calls. The figures of sizes in them are text, as in
// the definitions.
#[tactic(auto, unfolding(crate::specs::Refusals::refusal_words))]
pub fn words(out: &mut [u8], at: usize, n: u8, line: u32) -> usize
    requires { at + length (refusal_words n line) ≤ length out.old }
    ensures { Put out.old at (refusal_words n line) out.new result }
{
    match n {
        1 => {
            statement_writer::word(
                out,
                at,
                b"the host program: table under 1,024 words, verdicts under 1,024 bytes or new text under 34,816 bytes",
            )
        }
        15 => statement_writer::word(out, at, b"the host program: budget over 1,000,000"),
        2 => {
            on_line(
                out,
                at,
                b"the author of the shift program: line ",
                line,
                b" isn't spelled as a statement, or lacks its byte 10",
            )
        }
        3 => {
            statement_writer::word(
                out,
                at,
                b"the author of the shift program: under 2 or over 1,024 lines",
            )
        }
        4 => {
            on_line(
                out,
                at,
                b"the author of the shift program: line ",
                line,
                b": read or write missing from its place or standing elsewhere",
            )
        }
        5 => {
            on_line(
                out,
                at,
                b"the author of the shift program: line ",
                line,
                b": a target outside 2 to N",
            )
        }
        6 => statement_writer::word(
            out,
            at,
            b"the author of the condition: longer than 1,024 bytes",
        ),
        7 => {
            on_line(
                out,
                at,
                b"the author of the condition: misspelled from byte ",
                line,
                b" on",
            )
        }
        8 => statement_writer::word(out, at, b"the author of the condition: over 64 parts"),
        9 => {
            on_line(
                out,
                at,
                b"the optimiser: line ",
                line,
                b" isn't spelled as a mark, or lacks its byte 10",
            )
        }
        10 => statement_writer::word(out, at, b"the optimiser: over 1,024 lines"),
        16 => statement_writer::word(
            out,
            at,
            b"the author of the review: no line or over 32 lines",
        ),
        17 => statement_writer::word(
            out,
            at,
            b"the author of the review: over 128 differing parts",
        ),
        19 => statement_writer::word(
            out,
            at,
            b"the buyer: some price misspelled or outside 1 to 65,535, or the last without its byte 10",
        ),
        20 => statement_writer::word(out, at, b"the buyer: other than 11 lines of prices"),
        21 => statement_writer::word(
            out,
            at,
            b"the author of the shift program: the joined program has over 1,024 statements",
        ),
        22 => statement_writer::word(
            out,
            at,
            b"the author of the driver's list: a variable misspelled or named twice",
        ),
        23 => statement_writer::word(
            out,
            at,
            b"who names stages: a name that isn't 1 to 8 lower-case letters",
        ),
        24 => statement_writer::word(
            out,
            at,
            b"who names stages: a new name where all eight places hold others",
        ),
        25 => statement_writer::word(out, at, b"who names stages: a name that no place holds"),
        _ => at,
    }
}

// The line with the number of the refusal, and its words on the next; `line` is the line of the program's text
// that 2, 4 and 5 are about, the line of the list of marks that 9 is about, or the byte of the condition that 7 is about.
pub fn refusal(out: &mut [u8], at: usize, n: u8, line: u32) -> usize
    requires { at + length (refusal_text n line) ≤ length out.old }
    ensures { Put out.old at (refusal_text n line) out.new result }
{
    let k1 = statement_writer::word(out, at, b"refused ");
    let k2 = statement_writer::number(out, k1, n as u32);
    let k3 = statement_writer::byte(out, k2, 10);
    let k4 = words(out, k3, n, line);
    statement_writer::byte(out, k4, 10)
}
