// The list of the statements that define and that use each variable: made, brought up to date, counted.
#![tactic(auto)]

ghost use Rattle.std.specs.Prelude.{◌≡◌, ◌≤◌, length};
ghost use Rattle.program.specs.Program.{at, row_words, WellFormed};
ghost use Rattle.program.specs.Reading.{statements, Held};
ghost use Rattle.bits.specs.Row.{member, Zeros};
ghost use Rattle.labelling.specs.Labels.{Labelled};
ghost use Rattle.language.specs.Spelling.{variables};
ghost use Rattle.listing.specs.Listing.{list_words, Updated, Counted};
ghost use Rattle.listing.specs.Writing.{Merged, Made, OnesFrom};

use program::{Program, ROW_WORDS};

// What is counted has an entry for each variable.
pub const COUNTS: usize = language::VARIABLES as usize;

// A variable has two sets, the statements that define it and then those that use it.
pub const LIST_WORDS: usize = ROW_WORDS * 2 * COUNTS;

// For each variable how many ones its sets have.
#[derive(Clone, Copy)]
pub struct Ones {
    pub defined: [u32; COUNTS],
    pub used: [u32; COUNTS],
}

// The places at which the statements of q differ from those of p.
fn changed(p: Program, q: Program) -> [u64; ROW_WORDS]
    requires { Held p × Held q × (q.count ≡ p.count) }
    ensures { (length result ≡ row_words) × Labelled p.count (member result) (λ s. at (statements q) s ≡ at (statements p) s → ⊥) }
{
    let mut row = atoms::blank_row();
    for s in 0..p.count {
        let i = encoding::statement_of(p.entries[s]);
        let j = encoding::statement_of(q.entries[s]);
        if !codes::same_statement(j, i) {
            bits::insert(&mut row, s);
        }
    }
    row
}

// Writes the bits of the places as in the fresh list.
fn merge(places: &[u64], fresh: &[u64], list: &mut [u64])
    requires places_len { (length places.now ≡ row_words) × (length fresh.now ≡ list_words) }
    requires list_words_in_bounds { list_words ≤ length list.old }
    ensures { Merged places.now fresh.now list.old list.new }
{
    for m in 0..LIST_WORDS {
        let w = places[m % ROW_WORDS];
        list[m] = (list[m] & (w ^ u64::MAX)) | (fresh[m] & w);
    }
}

// Makes the program's list.
pub fn make(p: Program, list: &mut [u64])
    requires held { Held p }
    requires well_formed { WellFormed (statements p) }
    requires list_words_in_bounds { list_words ≤ length list.old }
    ensures { Made (statements p) list.old list.new }
{
    let mut codes = atoms::no_codes();
    bits::clear(&mut list[..LIST_WORDS]);
    atoms::find(p, &mut list[..LIST_WORDS], &mut codes);
}

// Brings the list up to date after p became q: only the bits of changed statements are written.
pub fn update(p: Program, q: Program, list: &mut [u64])
    requires held { Held p × Held q × (q.count ≡ p.count) }
    requires well_formed { WellFormed (statements q) }
    requires list_words_in_bounds { list_words ≤ length list.old }
    ensures { Updated (statements p) (statements q) list.old list.new }
{
    let places = changed(p, q);
    let mut fresh = atoms::blank();
    let mut codes = atoms::no_codes();
    atoms::find(q, &mut fresh, &mut codes);
    merge(&places, &fresh, list);
}

fn no_counts() -> [u32; COUNTS]
    ensures { Zeros variables result }
{
    [0; COUNTS]
}

// The ones of every second set from the first on: of the sets that define where it is 0, of those that use where it is 1.
fn ones_from(first: usize, list: &[u64]) -> [u32; COUNTS]
    requires { (first ≤ 1) × (list_words ≤ length list.now) }
    ensures { OnesFrom first list.now result }
{
    let mut counts = no_counts();
    for v in 0..COUNTS {
        let at = ROW_WORDS * (2 * v + first);
        let end = at + ROW_WORDS;
        counts[v] = bits::count(&list[at..end]);
    }
    counts
}

// The counts of this list.
pub fn listed(list: &[u64]) -> Ones
    requires { list_words ≤ length list.now }
    ensures { Counted list.now result.defined result.used }
{
    Ones {
        defined: ones_from(0, list),
        used: ones_from(1, list),
    }
}
