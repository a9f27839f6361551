// The parts of a line get the numbers of their tables: those spelled alike have one.
#![tactic(auto)]

ghost use Rattle.std.specs.Prelude.{◌≡◌, List};
ghost use Rattle.bits.specs.Row.{Zeros};
ghost use Rattle.condition.specs.Condition.{Condition};
ghost use Rattle.condition.specs.Texts.{most_parts};
ghost use Rattle.numbering.specs.Numbering.{entry_of, Usable, Sharing, Line, SomeLine, LineNumbered};

use condition::{END, FIELD, LEFT, MOST_PARTS, START};
use sharing::MOST_TABLES;

// How many differing parts there are after a line, and the number of the line's table. One more than MOST_TABLES stands for all greater
// counts, which number no table.
#[derive(Clone, Copy)]
pub struct LineNumber {
    pub count: usize,
    pub table: u32,
}

fn blank_numbers() -> [u32; MOST_PARTS]
    ensures { Zeros most_parts result }
{
    [0; MOST_PARTS]
}

// The entry of part k of a line that begins at `base`: an atom by the places of its text, an operator by its operands' numbers.
fn entry_of(w: u64, base: usize, numbers: &[u32], k: usize) -> u64
    requires { Usable w base k numbers.now }
    ensures { result ≡ entry_of w base numbers.now k }
{
    let code = w % LEFT;
    if code == 0 {
        let start = base as u64 + w / START % FIELD;
        let end = base as u64 + w / END;
        return START * start + END * end;
    }
    let left = table::left_of(w, k);
    let right = k - 1;
    let a = numbers[left] as u64;
    let b = numbers[right] as u64;
    code + LEFT * a + START * b
}

// Numbers the parts of the line that begins at `base`, after `count` differing ones. Beyond MOST_TABLES no more are held.
pub fn number_line(
    text: &[u8],
    base: usize,
    words: [u64; MOST_PARTS],
    parts: usize,
    entries: &mut [u64],
    links: &mut [u16],
    heads: &mut [u16],
    count: usize,
) -> LineNumber
    requires { SomeLine text.now base parts words entries.old links.old heads.old count }
    ensures { (ps : List Condition) (c : Condition) → Line text.now base parts words ps c → Sharing text.now ps entries.old links.old heads.old count → LineNumbered text.now ps c entries.new links.new heads.new result }
{
    if MOST_TABLES < count {
        return LineNumber {
            count: count,
            table: 0,
        };
    }
    let mut numbers = blank_numbers();
    let mut n = count;
    for k in 0..parts {
        let e = entry_of(words[k], base, &numbers, k);
        let found = keys::find(text, e, &*entries, &*links, &*heads, n);
        if let Some(i) = found {
            numbers[k] = i as u32;
        } else {
            if MOST_TABLES <= n {
                return LineNumber {
                    count: n + 1,
                    table: 0,
                };
            }
            keys::add(text, e, entries, links, heads, n);
            numbers[k] = n as u32;
            n += 1;
        }
    }
    let last = parts - 1;
    LineNumber {
        count: n,
        table: numbers[last],
    }
}
