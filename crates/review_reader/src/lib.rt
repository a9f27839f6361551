// The conditions of a review: read line by line, with refusals 6 to 8, 16 and 17, and their parts numbered.
#![tactic(auto)]

ghost use Rattle.std.specs.Prelude.{◌≡◌, ◌≤◌, length};
ghost use Rattle.bits.specs.Row.{Zeros};
ghost use Rattle.condition.specs.Texts.{most_bytes};
ghost use Rattle.sharing.specs.Sharing.{most_lines, most_tables};
ghost use Rattle.review_reader.specs.Reading.{number};
ghost use Rattle.review_reader.specs.Walking.{EndsAt, Counted, RestTold, ReviewRead};

use condition::MOST_BYTES;
use refusals::Numbered;
use sharing::{MOST_LINES, MOST_TABLES};

// The refusals of the conditions' text, with their numbers of documents 01 and 02.
#[derive(Clone, Copy)]
pub enum Refusal {
    LineCount,
    Line(condition_reader::Refusal),
    TableCount,
}

impl Numbered for Refusal {
    ghost number = { number };

    fn number(self) -> u8 {
        match self {
            Refusal::LineCount => 16,
            Refusal::Line(refusal) => refusal.number(),
            Refusal::TableCount => 17,
        }
    }
}

// The number of differing parts, which is that of their tables, and the number of lines.
#[derive(Clone, Copy)]
pub struct Reading {
    pub tables: u32,
    pub lines: u32,
}

// Where the line at the position ends: at its byte 10, or at the text's end.
fn line_end(s: &[u8], at: usize) -> usize
    requires { at ≤ length s.now }
    ensures { EndsAt s.now at result }
{
    for k in at..s.len() {
        if s[k] == 10 {
            return k;
        }
    }
    s.len()
}

// The number of lines, an unfinished last one counted.
fn line_count(s: &[u8]) -> usize
    ensures { Counted s.now result }
{
    let mut n: usize = 0;
    let mut at: usize = 0;
    // Not a `for`: each step goes on to the next line, which begins where this one ends.
    while at < s.len() {
        let end = line_end(s, at);
        if s.len() <= end {
            return n + 1;
        }
        n += 1;
        at = end + 1;
    }
    n
}

// The refusal of an unfinished last line of n bytes.
fn rest_refusal(n: usize) -> condition_reader::Refusal
    ensures { RestTold n result }
{
    if MOST_BYTES < n {
        condition_reader::Refusal::Length
    } else {
        condition_reader::Refusal::Misspelled
    }
}

// Reads each line and numbers its parts. Where the conditions are taken, the first entries are those of the differing parts, and each line
// has the number of its table and that of its parts. All lines are read, also beyond MOST_TABLES.
pub fn read(
    text: &[u8],
    entries: &mut [u64],
    numbers: &mut [u32],
    counts: &mut [u32],
) -> Result<Reading, Refusal>
    requires { Zeros most_tables entries.old × Zeros most_lines numbers.old × Zeros most_lines counts.old }
    ensures { ReviewRead text.now result entries.new numbers.new counts.new }
{
    let n = line_count(text);
    if n < 1 || MOST_LINES < n {
        return Err(Refusal::LineCount);
    }
    let mut links = keys::blank_links();
    let mut heads = keys::blank_heads();
    let mut count: usize = 0;
    let mut j: usize = 0;
    let mut at: usize = 0;
    // Not a `for`, as in `line_count`.
    while at < text.len() {
        let end = line_end(text, at);
        if text.len() <= end {
            return Err(Refusal::Line(rest_refusal(end - at)));
        }
        match condition_reader::read(&text[at..end]) {
            Err(refusal) => {
                return Err(Refusal::Line(refusal));
            }
            Ok(reading) => {
                let size = reading.count as usize;
                let words = reading.words;
                let line = numbering::number_line(
                    text, at, words, size, entries, &mut links, &mut heads, count,
                );
                numbers[j] = line.table;
                counts[j] = reading.count;
                count = line.count;
                j += 1;
                at = end + 1;
            }
        }
    }
    if MOST_TABLES < count {
        return Err(Refusal::TableCount);
    }
    Ok(Reading {
        tables: count as u32,
        lines: j as u32,
    })
}
