// A call: the table of a condition's parts over a program. It takes any bytes, and has no `requires`.
#![tactic(auto)]

ghost use Rattle.std.specs.Prelude.{List, ◌≡◌, ℕ, ◌≤◌, length};
ghost use Rattle.program.specs.Program.{Taken};
ghost use Rattle.program.specs.Reading.{statements, Held};
ghost use Rattle.flow.specs.FlowOf.{flow_entries};
ghost use Rattle.table.specs.Fill.{SomeHeld};
ghost use Rattle.tabulate.specs.Tabulate.{table_words, TabulateAnswers};
ghost use Rattle.tabulate.specs.Whole.{WholeFilled};

use calls::Refusal;
use condition::MOST_PARTS;
use program::Program;
use table::{Summary, WORDS};

// The table of a condition's parts has this many words.
pub const TABLE_WORDS: usize = MOST_PARTS * WORDS;

// How many parts the condition has, how many statements satisfy the whole condition, and the first of them or 0.
#[derive(Clone, Copy)]
pub struct Filled {
    pub parts: u32,
    pub satisfied: u32,
    pub first: u32,
}

// Fills the table with the parts of a condition over a program, both of which were read, and draws the program's graph. Returns the counts
// of the whole condition.
pub fn fill(
    p: Program,
    condition: &[u8],
    words: [u64; MOST_PARTS],
    parts: u32,
    flow: &mut [u16],
    table: &mut [u64],
) -> Summary
    requires held { Held p × ((t : List ℕ) × Taken t (statements p)) }
    requires some_held { SomeHeld condition.now parts words }
    requires flow_len { (length flow.old ≡ flow_entries) × (table_words ≤ length table.old) }
    ensures { WholeFilled (statements p) condition.now words parts flow.new table.old table.new result.satisfied result.first }
{
    let mut rows = atoms::blank();
    let mut codes = atoms::blank_codes();
    atoms::find(p, &mut rows, &mut codes);
    flow::of(p, flow);
    let count = parts as usize;
    table::fill(
        condition, words, count, p.count, &rows, &codes, &*flow, table,
    );
    let last = count - 1;
    table::summary_of(&*table, last)
}

// Fills the table with the statements at which each part of the condition is true.
pub fn tabulate(
    program: &[u8],
    condition: &[u8],
    table: &mut [u64],
) -> Result<Filled, Refusal<condition_reader::Refusal>>
    ensures { TabulateAnswers program.now condition.now table.old table.new result }
{
    if table.len() < TABLE_WORDS {
        return Err(Refusal::Room);
    }
    let p = program::read(program)?;
    let c = condition_reader::read(condition).map_err(Refusal::Text)?;
    let mut flow = flow::blank();
    let summary = fill(p, condition, c.words, c.count, &mut flow, table);
    Ok(Filled {
        parts: c.count,
        satisfied: summary.satisfied,
        first: summary.first,
    })
}
