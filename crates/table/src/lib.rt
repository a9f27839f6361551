// Tables: the places at which each part of a condition is true.
#![tactic(auto)]

ghost use Rattle.std.specs.Prelude.{◌≡◌, false, List, ℕ, ◌+◌, ◌-◌, ◌*◌, ◌≤◌, ◌<◌, length, drop};
ghost use Rattle.tokens.specs.Parsing.{found};
ghost use Rattle.language.specs.declared.Statement.{Statement as StatementOf};
ghost use Rattle.atom_reader.specs.Parsing.{parse_atom};
ghost use Rattle.condition.specs.declared.Atom.{Atom as AtomOf};
ghost use Rattle.table.specs.Table.{part_words, row, Written, part_at};
ghost use Rattle.table.specs.Summary.{Counts};
ghost use Rattle.table.specs.Known.{KnownIn, SomeKnown};
ghost use Rattle.table.specs.Fill.{left_of, PartReady, SomeReady, HeldOf, SomeHeld, TableOf};
ghost use Rattle.program.specs.Program.{most};
ghost use Rattle.flow.specs.FlowOf.{flow_at};
ghost use Rattle.atoms.specs.Facts.{used_in, FactsIn, Sized};
ghost use Rattle.condition.specs.Condition.{Condition};
ghost use Rattle.bits.specs.Row.{member};
ghost use Rattle.ctl.specs.Paths.{So};
ghost use Rattle.labelling.specs.Labels.{Labelled, Rows};
ghost use Rattle.truth.specs.Truth.{HoldsBy, SatBy};
ghost use Rattle.table.specs.Rules.{Operation, code_of, rule_of, SatRule, flow_steps, BothWays};

use codes::CODE_WORDS;
use condition::{FIELD, LEFT, MOST_PARTS, START};
use labelling::Operator;

// The words of a part: one bit for each statement.
pub const WORDS: usize = program::ROW_WORDS;

// The places of a word.
const WORD_PLACES: usize = 64;

// How the row of an operator comes from the rows of its operands. A path operator: what is said of a path, of all paths, backward.
#[derive(Clone, Copy)]
pub enum Rule {
    Negation,
    Conjunction,
    Disjunction,
    Path(Operator, bool, bool),
    Nothing,
}

// The rule of an operator's code.
pub fn rule_of(code: u64) -> Rule
    ensures { (x : Operation) → code_of x ≡ code → result ≡ rule_of x }
{
    match code {
        1 => Rule::Negation,
        2 => Rule::Path(Operator::Next, false, false),
        3 => Rule::Path(Operator::Next, true, false),
        4 => Rule::Path(Operator::Finally, false, false),
        5 => Rule::Path(Operator::Finally, true, false),
        6 => Rule::Path(Operator::Globally, false, false),
        7 => Rule::Path(Operator::Globally, true, false),
        8 => Rule::Path(Operator::Next, false, true),
        9 => Rule::Path(Operator::Next, true, true),
        10 => Rule::Path(Operator::Finally, false, true),
        11 => Rule::Path(Operator::Finally, true, true),
        12 => Rule::Path(Operator::Globally, false, true),
        13 => Rule::Path(Operator::Globally, true, true),
        14 => Rule::Conjunction,
        15 => Rule::Disjunction,
        16 => Rule::Path(Operator::Until, false, false),
        17 => Rule::Path(Operator::Until, true, false),
        18 => Rule::Path(Operator::Weak, false, false),
        19 => Rule::Path(Operator::Weak, true, false),
        20 => Rule::Path(Operator::Until, false, true),
        21 => Rule::Path(Operator::Until, true, true),
        22 => Rule::Path(Operator::Weak, false, true),
        23 => Rule::Path(Operator::Weak, true, true),
        _ => Rule::Nothing,
    }
}

// The row of a path operator, on the steps of its direction.
fn path_row(
    op: Operator,
    all: bool,
    back: bool,
    n: usize,
    flow: &[u16],
    p: &[u64],
    q: &[u64],
    out: &mut [u64],
)
    requires both_ways { BothWays n flow.now }
    requires rows { Rows n p.now q.now out.old }
    ensures { Labelled n (member out.new) (SatRule (flow_steps n (flow_at flow.now)) (Rule.Path op all back) (So (member p.now)) (So (member q.now))) }
{
    let forward = &flow[..graph::ENTRIES];
    let backward = &flow[graph::ENTRIES..];
    if back {
        labelling::label(op, all, n, backward, forward, p, q, out);
    } else {
        labelling::label(op, all, n, forward, backward, p, q, out);
    }
}

// The row of the operator that the rule is of, from the rows of its operands, in all of their words.
fn narrow_row(rule: Rule, n: usize, flow: &[u16], p: &[u64], q: &[u64], out: &mut [u64])
    requires both_ways { BothWays n flow.now }
    requires rows { Rows n p.now q.now out.old }
    requires by_index { ((s : ℕ) → n ≤ s → member p.now s ≡ false) × ((s : ℕ) → n ≤ s → member q.now s ≡ false) }
    ensures { Labelled n (member out.new) (SatRule (flow_steps n (flow_at flow.now)) rule (So (member p.now)) (So (member q.now))) }
{
    match rule {
        Rule::Negation => {
            let w = out.len();
            let mut places = bits::blank();
            bits::below(n, &mut places[..w]);
            bits::difference(&places[..w], p, out);
        }
        Rule::Conjunction => bits::intersection(p, q, out),
        Rule::Disjunction => bits::union(p, q, out),
        Rule::Path(op, all, back) => path_row(op, all, back, n, flow, p, q, out),
        Rule::Nothing => bits::clear(out),
    }
}

// The row of the operator that the rule is of, from the rows of its operands. Only the words that n places need are worked on: those
// after them have no place.
fn operator_row(rule: Rule, n: usize, flow: &[u16], p: &[u64], q: &[u64], out: &mut [u64])
    requires both_ways { BothWays n flow.now }
    requires rows { Rows n p.now q.now out.old }
    requires by_index { ((s : ℕ) → n ≤ s → member p.now s ≡ false) × ((s : ℕ) → n ≤ s → member q.now s ≡ false) }
    ensures { Labelled n (member out.new) (SatRule (flow_steps n (flow_at flow.now)) rule (So (member p.now)) (So (member q.now))) }
{
    let w = (n + WORD_PLACES - 1) / WORD_PLACES;
    narrow_row(rule, n, flow, &p[..w], &q[..w], &mut out[..w]);
    bits::clear(&mut out[w..]);
}

// The words of part k.
pub fn row_of(table: &[u64], k: usize) -> [u64; WORDS]
    requires { part_words * k + part_words ≤ length table.now }
    ensures { result ≡ row table.now k }
{
    let at = WORDS * k;
    let end = at + WORDS;
    let mut words = atoms::blank_row();
    words.copy_from_slice(&table[at..end]);
    words
}

// Part k becomes the row of an operator, from those of its operands' parts; of a unary operator the left one counts.
pub fn fill_operator(
    code: u64,
    left: usize,
    right: usize,
    n: usize,
    flow: &[u16],
    table: &mut [u64],
    k: usize,
)
    requires both_ways { BothWays n flow.now × (n ≤ part_words * 64) }
    requires left_lt_k { (left < k) × (right < k) × (part_words * k + part_words ≤ length table.old) }
    requires by_index { ((s : ℕ) → n ≤ s → member (row table.old left) s ≡ false) × ((s : ℕ) → n ≤ s → member (row table.old right) s ≡ false) }
    ensures { (x : Operation) → code_of x ≡ code → Written part_words table.old table.new k n (SatRule (flow_steps n (flow_at flow.now)) (rule_of x) (So (member (row table.old left))) (So (member (row table.old right)))) }
{
    let p = row_of(&*table, left);
    let q = row_of(&*table, right);
    let rule = rule_of(code);
    let at = WORDS * k;
    let end = at + WORDS;
    operator_row(rule, n, flow, &p, &q, &mut table[at..end]);
}

// Part k becomes the row of the atom whose text begins at `start`.
pub fn fill_atom(
    text: &[u8],
    start: usize,
    n: usize,
    rows: &[u64],
    codes: &[[u64; CODE_WORDS]],
    table: &mut [u64],
    k: usize,
)
    requires n_le_most { (n ≤ most) × Sized rows.now codes.now }
    requires part_words_in_bounds { part_words * k + part_words ≤ length table.old }
    ensures { (P : List StatementOf) (a : AtomOf) (rest : List ℕ) → length P ≡ n → FactsIn P (length P) rows.now codes.now → parse_atom (drop start text.now) ≡ found a rest → Written part_words table.old table.new k n (HoldsBy (used_in rows.now) P a) }
{
    let Some((a, _)) = atom_reader::atom(text, start) else {
        return;
    };
    let at = WORDS * k;
    let end = at + WORDS;
    atoms::row(a, n, rows, codes, &mut table[at..end]);
}

// The part of the left operand of part k's operator; of a unary operator it is the part before.
pub fn left_of(w: u64, k: usize) -> usize
    requires { 0 < k }
    ensures { result ≡ left_of w k }
{
    if w % LEFT < 14 {
        k - 1
    } else {
        (w / LEFT % FIELD) as usize
    }
}

// Part k becomes its row: w is its word.
fn fill_part(
    text: &[u8],
    w: u64,
    n: usize,
    rows: &[u64],
    codes: &[[u64; CODE_WORDS]],
    flow: &[u16],
    table: &mut [u64],
    k: usize,
)
    requires { SomeReady n rows.now codes.now flow.now text.now w table.old k }
    ensures { (P : List StatementOf) (c : Condition) → PartReady P n rows.now codes.now flow.now text.now c w table.old k → Written part_words table.old table.new k (length P) (SatBy (used_in rows.now) P (part_at c k)) }
{
    let code = w % LEFT;
    if code == 0 {
        let start = (w / START % FIELD) as usize;
        fill_atom(text, start, n, rows, codes, table, k);
    } else {
        let left = left_of(w, k);
        fill_operator(code, left, k - 1, n, flow, table, k);
    }
}

// Fills the table with the row of each part of the condition whose text and words these are, at the n statements of the program that
// the facts and the control-flow graph are of, variables used as the rows have it.
pub fn fill(
    text: &[u8],
    words: [u64; MOST_PARTS],
    parts: usize,
    n: usize,
    rows: &[u64],
    codes: &[[u64; CODE_WORDS]],
    flow: &[u16],
    table: &mut [u64],
)
    requires some_known { SomeKnown n rows.now codes.now flow.now }
    requires some_held { SomeHeld text.now parts words }
    requires parts_in_bounds { part_words * parts ≤ length table.old }
    ensures { (P : List StatementOf) (c : Condition) → KnownIn P n rows.now codes.now flow.now → HeldOf text.now c parts words → TableOf (used_in rows.now) P c table.old table.new }
{
    for k in 0..parts {
        fill_part(text, words[k], n, rows, codes, flow, table, k);
    }
}

// How many places are in a row, and the number of the first, or 0.
#[derive(Clone, Copy)]
pub struct Summary {
    pub satisfied: u32,
    pub first: u32,
}

pub fn summary_of(table: &[u64], k: usize) -> Summary
    requires { part_words * k + part_words ≤ length table.now }
    ensures { Counts (member (row table.now k)) (part_words * 64) result.satisfied result.first }
{
    let words = row_of(table, k);
    let place = bits::first(&words);
    Summary {
        satisfied: bits::count(&words),
        first: if place < WORDS * WORD_PLACES {
            (place + 1) as u32
        } else {
            0
        },
    }
}
