// A call: a path that shows why a part of a condition is true at a statement, or false. It takes any bytes, and has no `requires`.
#![tactic(auto)]

ghost use Rattle.std.specs.Prelude.{◌≡◌, Bool, true, false, not, List, ℕ, ◌*◌, ◌≤◌, ◌<◌, length};
ghost use Rattle.language.specs.declared.Statement.{Statement as StatementOf};
ghost use Rattle.bits.specs.Row.{Zeros, member};
ghost use Rattle.program.specs.Program.{most, Taken};
ghost use Rattle.program.specs.Reading.{statements, Held};
ghost use Rattle.ctl.specs.Paths.{quant, So};
ghost use Rattle.flow.specs.FlowOf.{flow_at};
ghost use Rattle.condition.specs.Condition.{Condition};
ghost use Rattle.labelling.specs.Labels.{Labelled};
ghost use Rattle.table.specs.Table.{part_words};
ghost use Rattle.table.specs.Rules.{direction, SatRule, flow_steps, BothWays};
ghost use Rattle.table.specs.Fill.{HeldOf, SomeHeld};
ghost use Rattle.tabulate.specs.Tabulate.{table_words};
ghost use Rattle.witness.specs.Witness.{Witness};
ghost use Rattle.witness.specs.Trails.{Words};
ghost use Rattle.explain.specs.Explain.{path_words, WitnessTold, WitnessAnswers};
ghost use Rattle.explain.specs.Parts.{SomeWords, Looked, Tabled, SomeTabled, Explained};

use calls::Refusal;
use condition::{LEFT, MOST_PARTS};
use labelling::Operator;
use program::Program;
use table::{Rule, WORDS};
use tabulate::TABLE_WORDS;
use walks::Trail;

// A path has room in this many words.
pub const PATH_WORDS: usize = program::MOST + 1;

// Path: how many words it has, and 0, or the word to whose statement its last turns back, counted from 1. None: whether the part is true
// there.
#[derive(Clone, Copy)]
pub enum Witnessed {
    Path(u32, u32),
    None(bool),
}

// The part that is left of part k without the negations before it.
fn below_negations(words: [u64; MOST_PARTS], parts: usize, k: usize) -> usize
    requires { SomeWords parts words × (k < parts) }
    ensures { Looked parts words k result }
{
    let mut j = k;
    // The part where it ends is what is looked for: no range has its end at the start.
    while words[j] % LEFT == 1 {
        j -= 1;
    }
    j
}

// A path from s for a path operator, on the steps of its direction.
fn path_for(
    op: Operator,
    all: bool,
    back: bool,
    n: usize,
    flow: &[u16],
    p: &[u64],
    q: &[u64],
    row: &[u64],
    s: usize,
    path: &mut [u32],
) -> Trail
    requires both_ways { BothWays n flow.now × (n ≤ length row.now * 64) × Words n path.old }
    requires p_len { (length p.now ≡ part_words) × (length q.now ≡ part_words) × (length row.now ≡ part_words) }
    requires s_lt_n { (s < n) × (member row.now s ≡ not all) × Labelled n (member row.now) (SatRule (flow_steps n (flow_at flow.now)) (Rule.Path op all back) (So (member p.now)) (So (member q.now))) }
    ensures { Witness (quant all) op n (flow_steps n (flow_at flow.now) (direction back)) (So (member p.now)) (So (member q.now)) s path.old path.new result.length result.turn }
{
    let forward = &flow[..graph::ENTRIES];
    let backward = &flow[graph::ENTRIES..];
    let mut places = atoms::blank_row();
    let mut first = atoms::blank_row();
    let mut second = atoms::blank_row();
    let mut spare = atoms::blank_row();
    if back {
        return witness::witness(
            op,
            all,
            n,
            backward,
            forward,
            p,
            q,
            row,
            &mut places,
            &mut first,
            &mut second,
            &mut spare,
            s,
            path,
        );
    }
    witness::witness(
        op,
        all,
        n,
        forward,
        backward,
        p,
        q,
        row,
        &mut places,
        &mut first,
        &mut second,
        &mut spare,
        s,
        path,
    )
}

// The answer on part k at place s, whose truth is told.
fn part_at(
    words: [u64; MOST_PARTS],
    parts: usize,
    k: usize,
    n: usize,
    flow: &[u16],
    table: &[u64],
    s: usize,
    truth: bool,
    path: &mut [u32],
) -> Witnessed
    requires some_tabled { SomeTabled parts words n flow.now table.now × (k < parts) × (s < n) }
    requires parts_in_bounds { (part_words * parts ≤ length table.now) × Words n path.old }
    ensures { (P : List StatementOf) (u : List ℕ) (c : Condition) → Tabled P u c parts words n flow.now table.now → Explained P c k s truth path.old path.new result }
{
    let j = below_negations(words, parts, k);
    let w = words[j];
    let code = w % LEFT;
    if code == 0 {
        return Witnessed::None(truth);
    }
    let rule = table::rule_of(code);
    match rule {
        Rule::Negation => Witnessed::None(truth),
        Rule::Conjunction => Witnessed::None(truth),
        Rule::Disjunction => Witnessed::None(truth),
        Rule::Path(op, all, back) => {
            let row = table::row_of(table, j);
            if bits::contains(&row, s) == all {
                return Witnessed::None(truth);
            }
            let left = table::left_of(w, j);
            let p = table::row_of(table, left);
            let q = table::row_of(table, j - 1);
            let trail = path_for(op, all, back, n, flow, &p, &q, &row, s, path);
            Witnessed::Path(trail.length as u32, trail.turn as u32)
        }
        Rule::Nothing => Witnessed::None(truth),
    }
}

// A table to use.
fn blank_table() -> [u64; TABLE_WORDS]
    ensures { Zeros table_words result }
{
    [0; TABLE_WORDS]
}

// The answer on a part of a condition at a statement of a program, both of which were read.
fn at_statement(
    p: Program,
    condition: &[u8],
    words: [u64; MOST_PARTS],
    parts: u32,
    part: u32,
    statement: u32,
    path: &mut [u32],
) -> Witnessed
    requires held { Held p × ((t : List ℕ) × Taken t (statements p)) }
    requires some_held { SomeHeld condition.now parts words }
    requires path_words_in_bounds { path_words ≤ length path.old }
    ensures { (t : List ℕ) (c : Condition) → Taken t (statements p) → HeldOf condition.now c parts words → WitnessTold t condition.now part statement path.old path.new result }
{
    let n = p.count;
    let k = part as usize;
    let place = statement as usize;
    if part >= parts {
        return Witnessed::None(false);
    }
    if place == 0 {
        return Witnessed::None(false);
    }
    if place > n {
        return Witnessed::None(false);
    }
    let s = place - 1;
    let count = parts as usize;
    let mut flow = flow::blank();
    let mut table = blank_table();
    tabulate::fill(p, condition, words, parts, &mut flow, &mut table);
    let row = table::row_of(&table, k);
    let truth = bits::contains(&row, s);
    part_at(words, count, k, n, &flow, &table, s, truth, path)
}

// A path that shows what part `part` of the condition is at a statement: one that bears out a true E, or speaks against a false A.
pub fn witness(
    program: &[u8],
    condition: &[u8],
    part: u32,
    statement: u32,
    path: &mut [u32],
) -> Result<Witnessed, Refusal<condition_reader::Refusal>>
    ensures { WitnessAnswers program.now condition.now part statement path.old path.new result }
{
    if path.len() < PATH_WORDS {
        return Err(Refusal::Room);
    }
    let p = program::read(program)?;
    let c = condition_reader::read(condition).map_err(Refusal::Text)?;
    Ok(at_statement(p, condition, c.words, c.count, part, statement, path))
}
