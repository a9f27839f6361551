// Marks judged on a program, and the program with the accepted ones made.
#![tactic(auto)]

ghost use Rattle.std.specs.Prelude.{◌≡◌, List, ◌↔◌, ℕ, ◌≤◌, ◌<◌, length};
ghost use Rattle.language.specs.declared.Statement.{Statement as StatementOf};
ghost use Rattle.program.specs.Program.{most as statements-most, row_words};
ghost use Rattle.base.specs.Decides.{Decides};
ghost use Rattle.program.specs.Reading.{statements, Held};
ghost use Rattle.truth.specs.Truth.{uses_of};
ghost use Rattle.table.specs.Known.{Known, SomeKnown};
ghost use Rattle.marks.specs.Reading.{most, Taken};
ghost use Rattle.marks.specs.Marks.{ValidMark, names};
ghost use Rattle.marks.specs.declared.Mark.{Mark as MarkOf};
ghost use Rattle.rewriting.specs.Verdicts.{Inside, place, Stands};
ghost use Rattle.published_rows.specs.Memory.{Remembering};
ghost use Rattle.verdicts.specs.Judging.{JudgedBy, Notes, Reusing, Reused, SomeTaken, VerdictsOf, SomeJudged, RewritingOf};

use codes::CODE_WORDS;
use language::Statement;
use marks::Mark;
use program::{MOST, Program};
use rewriting::Verdict;
use table::WORDS;

// Whether the statement that the mark names is one of n.
fn is_inside(n: usize, m: Mark) -> bool
    requires { n ≤ statements-most }
    ensures { Decides result (Inside n (names m)) }
{
    let k = rewriting::statement_of(m);
    if k < 1 {
        return false;
    }
    k <= n as u32
}

// The place that the mark names, of all that there can be.
pub fn place_of(m: Mark) -> usize
    ensures { (result < statements-most) × (Inside statements-most (names m) → result ≡ place m) }
{
    let k = rewriting::statement_of(m);
    if k < 1 {
        return 0;
    }
    if MOST < k as usize {
        return 0;
    }
    (k - 1) as usize
}

// The verdict of a mark on a program of n statements; i is the one that it names, and `named` are the places that the earlier lines name.
fn verdict_of(
    m: Mark,
    i: Statement,
    n: usize,
    rows: &[u64],
    codes: &[[u64; CODE_WORDS]],
    flow: &[u16],
    named: &[u64],
    keys: &mut [[u64; CODE_WORDS]],
    memory: &mut [[u64; WORDS]],
) -> Verdict
    requires some_known { SomeKnown n rows.now codes.now flow.now }
    requires valid_mark { ValidMark m × (length named.now ≡ row_words) }
    requires remembering { Remembering n rows.now codes.now flow.now keys.old memory.old }
    ensures { ((P : List StatementOf) → Known P n rows.now codes.now flow.now → JudgedBy P m i named.now result) × Remembering n rows.now codes.now flow.now keys.new memory.new }
{
    let place = place_of(m);
    let missing = !is_inside(n, m);
    let repeated = bits::contains(named, place);
    if missing {
        return Verdict::Missing;
    }
    if repeated {
        return Verdict::Repeated;
    }
    if !fitting::fits(m, i) {
        return Verdict::Unfit;
    }
    if !fitting::droppable(m) {
        return Verdict::MayFault;
    }
    let row = published_rows::remembered_row(m, n, rows, codes, flow, keys, memory);
    if !bits::contains(&row, place) {
        return Verdict::Unmet;
    }
    Verdict::Accepted
}

// Whether the mark with this verdict byte is an accepted `cse`.
fn is_reuse(m: Mark, b: u8) -> bool
    ensures { Decides result (Reusing m b) }
{
    match m {
        Mark::Rm(_, _, _) => false,
        Mark::Rpl(_, _, _) => false,
        Mark::Cse(_, _, _) => b == 0,
    }
}

// Adds the place that the mark with this verdict names.
fn note(m: Mark, v: Verdict, named: &mut [u64])
    requires { length named.old ≡ row_words }
    ensures { (n : ℕ) → n ≤ statements-most → Stands v ↔ Inside n (names m) → Notes n m named.old named.new }
{
    if rewriting::stands(v) {
        let place = place_of(m);
        bits::insert(named, place);
    }
}

// Judges each mark of the list on the program, whose facts and control-flow graph are lent, by the program's own uses: line j's verdict fills
// byte j. Tells whether a `cse` is accepted.
pub fn judge(
    marks: &[u8],
    p: Program,
    rows: &[u64],
    codes: &[[u64; CODE_WORDS]],
    flow: &[u16],
    verdicts: &mut [u8],
) -> bool
    requires held { Held p × Known (statements p) p.count rows.now codes.now flow.now }
    requires some_taken { SomeTaken marks.now × (most ≤ length verdicts.old) }
    ensures { (ms : List MarkOf) → Taken marks.now ms → VerdictsOf (uses_of (statements p)) (statements p) ms verdicts.old verdicts.new × Reused (statements p) ms result }
{
    let n = p.count;
    let mut named = atoms::blank_row();
    bits::clear(&mut named);
    let mut keys = published_rows::blank_keys();
    let mut memory = published_rows::blank_memory();
    let mut reused = false;
    // A `while`: each line tells where the next one begins, so no slice or range has the lines that a `for` would go over.
    let mut j: usize = 0;
    let mut at: usize = 0;
    while at < marks.len() {
        let Some((m, k)) = marks::read::line(marks, at) else {
            return reused;
        };
        let place = place_of(m);
        let e = p.entries[place];
        let i = encoding::statement_of(e);
        let v = verdict_of(m, i, n, rows, codes, flow, &named, &mut keys, &mut memory);
        let b = u8::from(v);
        verdicts[j] = b;
        note(m, v, &mut named);
        reused |= is_reuse(m, b);
        j += 1;
        at = k;
    }
    reused
}

// The program with the accepted marks made, and how many those are.
#[derive(Clone, Copy)]
pub struct Rewriting {
    pub program: Program,
    pub accepted: u32,
}

// Makes the accepted marks of the list, all on the given program.
pub fn rewrite(marks: &[u8], p: Program, verdicts: &[u8]) -> Rewriting
    requires held { Held p }
    requires some_judged { SomeJudged (statements p) marks.now verdicts.now }
    ensures { (ms : List MarkOf) → Taken marks.now ms → RewritingOf (statements p) ms verdicts.now result }
{
    let count = p.count;
    let mut entries = p.entries;
    let mut accepted: u32 = 0;
    // A `while`: each line tells where the next one begins, so no slice or range has the lines that a `for` would go over.
    let mut j: usize = 0;
    let mut at: usize = 0;
    while at < marks.len() {
        let Some((m, k)) = marks::read::line(marks, at) else {
            return Rewriting {
                program: p,
                accepted: 0,
            };
        };
        if verdicts[j] == 0 {
            let n = rewriting::statement_of(m);
            let place = (n - 1) as usize;
            let e = p.entries[place];
            let i = encoding::statement_of(e);
            entries[place] = encoding::entry_of(making::makes(m, i));
            accepted += 1;
        }
        j += 1;
        at = k;
    }
    Rewriting {
        program: Program {
            count: count,
            entries: entries,
        },
        accepted: accepted,
    }
}
