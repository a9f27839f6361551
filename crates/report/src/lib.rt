// The check program's output, and what it says of a refusal: a program and a list of marks in, the bytes that are printed out.
#![tactic(auto)]

ghost use Rattle.std.specs.Prelude.{◌≡◌, List, ◌++◌, length, ◌≤◌, ◌+◌};
ghost use Rattle.statement_writer.specs.Writing.{Put};
ghost use Rattle.marks.specs.Reading.{Taken};
ghost use Rattle.marks.specs.declared.Mark.{Mark};
ghost use Rattle.report.specs.Report.{refused_line, counts_line, verdict_line, verdict_lines, Reports};
ghost use Rattle.report.specs.Words.{words_line, Words};
ghost use Rattle.report.specs.Writing.{VerdictsFit, ReportFits};

use desk::refusals::REFUSAL_ROOM;
use judge::TEXT_BYTES;
use language::NUMBER_DIGITS;
use price_text::PRICE_TEXT_ROOM;
use refusals::Numbered;

// The digits of the number of marks, and of a verdict.
const COUNT_DIGITS: usize = 4;

const VERDICT_DIGITS: usize = 2;
// The line of the counts and that of a verdict have room in this many bytes, and every output in this many.
const COUNTS_ROOM: usize = 6 + COUNT_DIGITS + 10 + COUNT_DIGITS + 1;

const VERDICT_ROOM: usize = NUMBER_DIGITS + 1 + VERDICT_DIGITS + 1;

pub const REPORT_ROOM: usize = COUNTS_ROOM
    + marks::MOST * VERDICT_ROOM
    + TEXT_BYTES
    + PRICE_TEXT_ROOM;

// Written: the number of bytes of the report. Refused: the same of the line of a refused call. NoRoom: under REPORT_ROOM bytes are lent.
#[derive(Clone, Copy)]
pub enum Reported {
    Written(usize),
    Refused(usize),
    NoRoom,
}

// Written: the number of bytes of the refusal's words. Nothing: no refusal applies. NoRoom: under REFUSAL_ROOM bytes are lent.
#[derive(Clone, Copy)]
pub enum Worded {
    Written(usize),
    Nothing,
    NoRoom,
}

// Puts the line of a refused call at the front of the lent bytes, and answers its length.
fn write_refused(out: &mut [u8], n: u8) -> usize
    requires { length (refused_line n) ≤ length out.old }
    ensures { Put out.old 0 (refused_line n) out.new result }
{
    let k1 = statement_writer::word(out, 0, b"refused ");
    let k2 = statement_writer::number(out, k1, n as u32);
    statement_writer::byte(out, k2, 10)
}

// Puts the line with the number of marks and of accepted ones at the front of the lent bytes, and answers its length.
pub fn write_counts(out: &mut [u8], count: u32, accepted: u32) -> usize
    requires { length (counts_line count accepted) ≤ length out.old }
    ensures { Put out.old 0 (counts_line count accepted) out.new result }
{
    let k1 = statement_writer::word(out, 0, b"marks ");
    let k2 = statement_writer::number(out, k1, count);
    let k3 = statement_writer::word(out, k2, b" accepted ");
    let k4 = statement_writer::number(out, k3, accepted);
    statement_writer::byte(out, k4, 10)
}

// A mark's statement and its verdict.
fn write_verdict(out: &mut [u8], at: usize, n: u32, v: u8) -> usize
    requires { at + length (verdict_line n v) ≤ length out.old }
    ensures { Put out.old at (verdict_line n v) out.new result }
{
    let k1 = statement_writer::number(out, at, n);
    let k2 = statement_writer::byte(out, k1, b' ');
    let k3 = statement_writer::number(out, k2, v as u32);
    statement_writer::byte(out, k3, 10)
}

// The same for each mark of the list, in order.
fn write_verdicts(out: &mut [u8], at: usize, list: &[u8], verdicts: &[u8]) -> usize
    requires { VerdictsFit list.now verdicts.now at (length out.old) }
    ensures { (ms : List Mark) → Taken list.now ms → Put out.old at (verdict_lines ms verdicts.now) out.new result }
{
    // A `while`: each line tells where the next one begins, so no slice or range has the lines that a `for` would go over.
    let mut to = at;
    let mut from: usize = 0;
    let mut j: usize = 0;
    // A `while`: each line tells where the next one begins, so no slice or range has the lines that a `for` would go over.
    while from < list.len() {
        let Some((m, k)) = marks::read::line(list, from) else {
            return to;
        };
        to = write_verdict(out, to, rewriting::statement_of(m), verdicts[j]);
        from = k;
        j += 1;
    }
    to
}

// The counts, the verdicts and the new text, at the front of the lent bytes.
fn write_report(
    out: &mut [u8],
    count: u32,
    accepted: u32,
    list: &[u8],
    verdicts: &[u8],
    text: &[u8],
) -> usize
    requires { ReportFits list.now verdicts.now text.now count accepted (length out.old) }
    ensures { (ms : List Mark) → Taken list.now ms → Put out.old 0 (counts_line count accepted ++ (verdict_lines ms verdicts.now ++ text.now)) out.new result }
{
    let k1 = write_counts(out, count, accepted);
    let k2 = write_verdicts(out, k1, list, verdicts);
    statement_writer::word(out, k2, text)
}

// Puts what the check program prints for the program's text and the list of marks at the front of the lent bytes.
pub fn report(given: &[u8], marks: &[u8], out: &mut [u8]) -> Reported
    ensures { Reports given.now marks.now out.old out.new result }
{
    if out.len() < REPORT_ROOM {
        return Reported::NoRoom;
    }
    let mut verdicts = judge::verdict_buffer();
    let mut text = judge::text_buffer();
    let answer = judge::judge(given, marks, &mut verdicts, &mut text);
    match answer {
        Err(refusal) => {
            let n = refusal.number();
            Reported::Refused(write_refused(out, n))
        }
        Ok(judged) => {
            let end = judged.bytes as usize;
            let k = write_report(
                out,
                judged.marks,
                judged.accepted,
                marks,
                &verdicts,
                &text[..end],
            );
            let table = pricing::ours();
            let list = price_list::list(given, &text[..end], &table);
            Reported::Written(price_text::write(out, k, list))
        }
    }
}

// Puts the words of the refusal with number n, and byte 10, at the front of the lent bytes, and answers their number.
fn write_words(out: &mut [u8], n: u8, line: u32) -> usize
    requires { length (words_line n line) ≤ length out.old }
    ensures { Put out.old 0 (words_line n line) out.new result }
{
    let k = desk::refusals::words(out, 0, n, line);
    statement_writer::byte(out, k, 10)
}

// Puts the words of the refusal of the program's text and the list of marks, whose mistake it is and on which line, at the front of the
// lent bytes.
pub fn words(given: &[u8], marks: &[u8], out: &mut [u8]) -> Worded
    ensures { Words given.now marks.now out.old out.new result }
{
    if out.len() < REFUSAL_ROOM {
        return Worded::NoRoom;
    }
    let mut verdicts = judge::verdict_buffer();
    let mut text = judge::text_buffer();
    let answer = judge::judge(given, marks, &mut verdicts, &mut text);
    match answer {
        Err(refusal) => {
            let n = refusal.number();
            let line = refusal_line::line_of_number(given, marks, n);
            Worded::Written(write_words(out, n, line))
        }
        Ok(_) => Worded::Nothing,
    }
}
