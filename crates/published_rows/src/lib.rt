// The places at which a mark's published condition is true, remembered by the condition.
#![tactic(auto)]

ghost use Rattle.std.specs.Prelude.{◌≡◌, List, ◌<◌};
ghost use Rattle.language.specs.declared.Statement.{Statement};
ghost use Rattle.bits.specs.Row.{Zeros, ZeroRows};
ghost use Rattle.codes.specs.Codes.{code_word_count};
ghost use Rattle.atoms.specs.Facts.{used_in};
ghost use Rattle.table.specs.Table.{part_words};
ghost use Rattle.table.specs.Known.{KnownIn, SomeKnown};
ghost use Rattle.marks.specs.Marks.{ValidMark};
ghost use Rattle.published.specs.Published.{published_room};
ghost use Rattle.published_rows.specs.Rows.{published_words, SmallTaken, RowOf, RowFor};
ghost use Rattle.published_rows.specs.Memory.{key_of, Keyed, slots, Remembering};

use codes::CODE_WORDS;
use language::{Expression, Operand, Statement as Key};
use marks::Mark;
use published::PUBLISHED_ROOM;
use table::WORDS;

// The most parts of a published condition, and their words.
const PUBLISHED_PARTS: usize = 12;

const PUBLISHED_WORDS: usize = WORDS * PUBLISHED_PARTS;

fn blank_text() -> [u8; PUBLISHED_ROOM]
    ensures { Zeros published_room result }
{
    [0; PUBLISHED_ROOM]
}

fn blank_rows() -> [u64; PUBLISHED_WORDS]
    ensures { Zeros published_words result }
{
    [0; PUBLISHED_WORDS]
}

// The places at which the condition with this text is true, of the n statements that the facts and the graph are of, variables used as
// the rows have it: it is read and tabulated as any other.
pub fn row_of(
    text: &[u8],
    n: usize,
    rows: &[u64],
    codes: &[[u64; CODE_WORDS]],
    flow: &[u16],
) -> [u64; WORDS]
    requires some_known { SomeKnown n rows.now codes.now flow.now }
    requires small_taken { SmallTaken text.now }
    ensures { (P : List Statement) → KnownIn P n rows.now codes.now flow.now → RowOf (used_in rows.now) P text.now result }
{
    let Ok(reading) = condition_reader::read(text) else {
        return atoms::blank_row();
    };
    let count = reading.count as usize;
    let mut parts_table = blank_rows();
    table::fill(
        text,
        reading.words,
        count,
        n,
        rows,
        codes,
        flow,
        &mut parts_table,
    );
    let last = count - 1;
    table::row_of(&parts_table, last)
}

// The places at which the mark's published condition is true.
fn published_row(
    m: Mark,
    n: usize,
    rows: &[u64],
    codes: &[[u64; CODE_WORDS]],
    flow: &[u16],
) -> [u64; WORDS]
    requires some_known { SomeKnown n rows.now codes.now flow.now }
    requires valid_mark { ValidMark m }
    ensures { (P : List Statement) → KnownIn P n rows.now codes.now flow.now → RowFor (used_in rows.now) P m result }
{
    let mut text = blank_text();
    let end = published::write_published(m, &mut text);
    row_of(&text[..end], n, rows, codes, flow)
}

// The most rows that are remembered: a prime, so that the keys spread.
const SLOTS: usize = 251;

// Keys of no condition.
pub fn blank_keys() -> [[u64; CODE_WORDS]; SLOTS]
    ensures { ZeroRows slots code_word_count result }
{
    [[0; CODE_WORDS]; SLOTS]
}

pub fn blank_memory() -> [[u64; WORDS]; SLOTS]
    ensures { ZeroRows slots part_words result }
{
    [[0; WORDS]; SLOTS]
}

// The key of the mark's published condition.
fn key_of(m: Mark) -> Key
    ensures { result ≡ key_of m }
{
    match m {
        Mark::Rm(_, x, _) => Key::Write(x),
        Mark::Rpl(_, x, a) => Key::Assign(x, Expression::Single(a)),
        Mark::Cse(_, t, e) => Key::Assign(t, e),
    }
}

// In each: a number by which the keys spread; two may share one.
fn operand_number(a: Operand) -> u64
    ensures { result < 8589934592 }
{
    match a {
        Operand::Variable(y) => 2 * (y as u64),
        Operand::Constant(c) => 2 * (c as u64) % 8589934591 + 1,
    }
}

fn number_of(m: Mark) -> u64 {
    match m {
        Mark::Rm(_, x, _) => (x as u64) + 128,
        Mark::Rpl(_, x, a) => (x as u64) + 32 + 64 * operand_number(a),
        Mark::Cse(_, t, e) => match e {
            Expression::Single(_) => t as u64,
            Expression::Binary(a, _, b) => (t as u64)
                + 37 * operand_number(a)
                + 101 * operand_number(b),
        },
    }
}

// The slot of the mark's key.
fn slot_of(m: Mark) -> usize
    ensures { result < slots }
{
    (number_of(m) % (SLOTS as u64)) as usize
}

// The same as `published_row`: equal conditions are labelled once, unless another takes the slot between.
pub fn remembered_row(
    m: Mark,
    n: usize,
    rows: &[u64],
    codes: &[[u64; CODE_WORDS]],
    flow: &[u16],
    keys: &mut [[u64; CODE_WORDS]],
    memory: &mut [[u64; WORDS]],
) -> [u64; WORDS]
    requires some_known { SomeKnown n rows.now codes.now flow.now }
    requires valid_mark { ValidMark m × Keyed m × Remembering n rows.now codes.now flow.now keys.old memory.old }
    ensures { ((P : List Statement) → KnownIn P n rows.now codes.now flow.now → RowFor (used_in rows.now) P m result) × Remembering n rows.now codes.now flow.now keys.new memory.new }
{
    let key = codes::statement_code(key_of(m));
    let slot = slot_of(m);
    if codes::same_words(key, &keys[slot]) {
        return memory[slot];
    }
    let row = published_row(m, n, rows, codes, flow);
    let words = codes::words_of(key);
    keys[slot] = words;
    memory[slot] = row;
    row
}
