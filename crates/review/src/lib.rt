// A call: the tables of all conditions of a review over a program. It takes any bytes, and has no `requires`.
#![tactic(auto)]

ghost use Rattle.bits.specs.Row.{Zeros};
ghost use Rattle.sharing.specs.Sharing.{most_lines};
ghost use Rattle.review.specs.Review.{ReviewAnswers};

use calls::Refusal;
use sharing::{MOST_LINES, MOST_TABLES};
use table::WORDS;

// The tables of a review have this many words.
pub const REVIEW_WORDS: usize = MOST_TABLES * WORDS;

// How many tables were filled, which is the number of differing parts, and the number of lines. For each line its table, counted from 0, its
// parts, how many statements satisfy it, and the first of them or 0; zeros past the lines.
#[derive(Clone, Copy)]
pub struct Reviewed {
    pub tables: u32,
    pub lines: u32,
    pub table_of: [u32; MOST_LINES],
    pub parts: [u32; MOST_LINES],
    pub satisfied: [u32; MOST_LINES],
    pub first: [u32; MOST_LINES],
}

fn blank() -> [u32; MOST_LINES]
    ensures { Zeros most_lines result }
{
    [0; MOST_LINES]
}

// Fills a table for each differing part of the conditions. They are all read and numbered before any word is written.
pub fn review(
    program: &[u8],
    conditions: &[u8],
    table: &mut [u64],
) -> Result<Reviewed, Refusal<review_reader::Refusal>>
    ensures { ReviewAnswers program.now conditions.now table.old table.new result }
{
    if table.len() < REVIEW_WORDS {
        return Err(Refusal::Room);
    }
    let p = program::read(program)?;
    let mut entries = keys::blank_entries();
    let mut table_of = blank();
    let mut parts = blank();
    let reading = review_reader::read(conditions, &mut entries, &mut table_of, &mut parts).map_err(
        Refusal::Text,
    )?;
    let mut rows = atoms::blank();
    let mut codes = atoms::blank_codes();
    atoms::find(p, &mut rows, &mut codes);
    let mut flow = flow::blank();
    flow::of(p, &mut flow);
    let tables = reading.tables;
    let lines = reading.lines;
    review_tables::fill(
        conditions,
        &entries,
        tables as usize,
        p.count,
        &rows,
        &codes,
        &flow,
        table,
    );
    let mut satisfied = blank();
    let mut first = blank();
    review_tables::count_lines(
        &*table,
        &table_of,
        lines as usize,
        &mut satisfied,
        &mut first,
    );
    Ok(Reviewed {
        tables,
        lines,
        table_of,
        parts,
        satisfied,
        first,
    })
}
