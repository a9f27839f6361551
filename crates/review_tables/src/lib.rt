// The tables of a review: one for each differing part, and the counts of each line.
#![tactic(auto)]

ghost use Rattle.std.specs.Prelude.{List, ◌*◌, ◌≤◌, length};
ghost use Rattle.language.specs.declared.Statement.{Statement};
ghost use Rattle.bits.specs.Row.{Zeros};
ghost use Rattle.condition.specs.Condition.{Condition};
ghost use Rattle.truth.specs.Truth.{SatBy};
ghost use Rattle.atoms.specs.Facts.{used_in};
ghost use Rattle.table.specs.Table.{part_words, Written};
ghost use Rattle.table.specs.Known.{KnownIn, SomeKnown};
ghost use Rattle.sharing.specs.Sharing.{most_lines, part, firsts};
ghost use Rattle.numbering.specs.Numbering.{Shares};
ghost use Rattle.review_tables.specs.Filling.{EntryReady, SomeEntry, SomeShares, TablesOf, Rowed, CountedLines};

use codes::CODE_WORDS;
use condition::{FIELD, LEFT, START};

// Table k becomes the row of the part that the entry w tells.
fn fill_entry(
    text: &[u8],
    w: u64,
    n: usize,
    rows: &[u64],
    codes: &[[u64; CODE_WORDS]],
    flow: &[u16],
    table: &mut [u64],
    k: usize,
)
    requires { SomeEntry n rows.now codes.now flow.now text.now w table.old k }
    ensures { (P : List Statement) (ds : List Condition) → EntryReady P n rows.now codes.now flow.now text.now ds w table.old k → Written part_words table.old table.new k (length P) (SatBy (used_in rows.now) P (part ds k)) }
{
    let code = w % LEFT;
    let start = (w / START % FIELD) as usize;
    if code == 0 {
        table::fill_atom(text, start, n, rows, codes, table, k);
    } else {
        let left = (w / LEFT % FIELD) as usize;
        table::fill_operator(code, left, start, n, flow, table, k);
    }
}

// Fills a table for each of the first `count` entries, at the n statements of the program that the facts and the control-flow graph are of,
// variables used as the rows have it.
pub fn fill(
    text: &[u8],
    entries: &[u64],
    count: usize,
    n: usize,
    rows: &[u64],
    codes: &[[u64; CODE_WORDS]],
    flow: &[u16],
    table: &mut [u64],
)
    requires some_known { SomeKnown n rows.now codes.now flow.now }
    requires some_shares { SomeShares text.now entries.now count }
    requires count_in_bounds { part_words * count ≤ length table.old }
    ensures { (P : List Statement) (ps : List Condition) → KnownIn P n rows.now codes.now flow.now → Shares text.now ps entries.now count → TablesOf (used_in rows.now) P (firsts ps) table.old table.new }
{
    for k in 0..count {
        fill_entry(text, entries[k], n, rows, codes, flow, table, k);
    }
}

// How many statements satisfy each line, and the first: `numbers` are the lines' tables.
pub fn count_lines(
    table: &[u64],
    numbers: &[u32],
    lines: usize,
    satisfied: &mut [u32],
    first: &mut [u32],
)
    requires rowed { Rowed table.now numbers.now lines }
    requires zeros { Zeros most_lines satisfied.old × Zeros most_lines first.old }
    ensures { CountedLines table.now numbers.now satisfied.new first.new lines }
{
    for j in 0..lines {
        let summary = table::summary_of(table, numbers[j] as usize);
        satisfied[j] = summary.satisfied;
        first[j] = summary.first;
    }
}
