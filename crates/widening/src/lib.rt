// The uses that accepted `cse` marks add, and the `rm` marks of the same list judged with them.
#![tactic(auto)]

ghost use Rattle.std.specs.Prelude.{◌≡◌, List, ℕ, ◌≤◌, length};
ghost use Rattle.language.specs.declared.Statement.{Statement};
ghost use Rattle.base.specs.Decides.{Decides};
ghost use Rattle.program.specs.Reading.{statements, Held};
ghost use Rattle.truth.specs.Truth.{uses_of};
ghost use Rattle.atoms.specs.Facts.{fact_words};
ghost use Rattle.table.specs.Known.{KnownBy, Known, SomeKnown};
ghost use Rattle.marks.specs.Reading.{most, Taken};
ghost use Rattle.marks.specs.Marks.{ValidMark};
ghost use Rattle.marks.specs.declared.Mark.{Mark as MarkOf};
ghost use Rattle.published_rows.specs.Memory.{Remembering};
ghost use Rattle.rewriting.specs.Verdicts.{Widened, VerdictsBy};
ghost use Rattle.verdicts.specs.Judging.{SomeTaken, VerdictsOf};
ghost use Rattle.widening.specs.Widening.{Adds, Widens, Open, Again, JudgesAgain};

use codes::CODE_WORDS;
use marks::Mark;
use program::Program;
use rewriting::Verdict;
use table::WORDS;

// The variable that the mark with this verdict byte adds a use of, as an accepted `cse` does.
fn added_by(m: Mark, b: u8) -> Option<u8>
    ensures { Adds m b result }
{
    match m {
        Mark::Rm(_, _, _) => None,
        Mark::Rpl(_, _, _) => None,
        Mark::Cse(_, t, _) => {
            if b == 0 {
                return Some(t);
            }
            None
        }
    }
}

// Adds the uses of the accepted `cse` marks to the rows.
fn widen(marks: &[u8], rows: &mut [u64], verdicts: &[u8])
    requires { SomeTaken marks.now × (length rows.old ≡ fact_words) × (most ≤ length verdicts.now) }
    ensures { Widens marks.now rows.old verdicts.now rows.new }
{
    // A `while`: each line tells where the next one begins, so no slice or range has the lines that a `for` would go over.
    let mut j: usize = 0;
    let mut at: usize = 0;
    while at < marks.len() {
        let Some((m, k)) = marks::read::line(marks, at) else {
            return;
        };
        let place = verdicts::place_of(m);
        if let Some(t) = added_by(m, verdicts[j]) {
            atoms::use_also(t, place, rows);
        }
        j += 1;
        at = k;
    }
}

// Whether the mark with this verdict byte is an `rm` that came to its condition.
fn is_open(m: Mark, b: u8) -> bool
    ensures { Decides result (Open m b) }
{
    match m {
        Mark::Rm(_, _, _) => b == u8::from(Verdict::Unmet) || b == u8::from(Verdict::Accepted),
        Mark::Rpl(_, _, _) | Mark::Cse(_, _, _) => false,
    }
}

// The verdict byte of a mark whose byte by the program's own uses is b, now by the uses that the rows have.
fn byte_again(
    m: Mark,
    b: u8,
    n: usize,
    rows: &[u64],
    codes: &[[u64; CODE_WORDS]],
    flow: &[u16],
    keys: &mut [[u64; CODE_WORDS]],
    memory: &mut [[u64; WORDS]],
) -> u8
    requires some_known { SomeKnown n rows.now codes.now flow.now }
    requires valid_mark { ValidMark m × Remembering n rows.now codes.now flow.now keys.old memory.old }
    ensures { Again n rows.now codes.now flow.now m b result × Remembering n rows.now codes.now flow.now keys.new memory.new }
{
    if !is_open(m, b) {
        return b;
    }
    let row = published_rows::remembered_row(m, n, rows, codes, flow, keys, memory);
    let place = verdicts::place_of(m);
    if bits::contains(&row, place) {
        return u8::from(Verdict::Accepted);
    }
    u8::from(Verdict::Unmet)
}

// Judges each `rm` of the list that came to its condition again, by the uses that the rows have. Rows of conditions that were remembered by other
// uses play no part.
fn judge_again(
    marks: &[u8],
    n: usize,
    rows: &[u64],
    codes: &[[u64; CODE_WORDS]],
    flow: &[u16],
    verdicts: &mut [u8],
)
    requires some_known { SomeKnown n rows.now codes.now flow.now }
    requires some_taken { SomeTaken marks.now × (most ≤ length verdicts.old) }
    ensures { JudgesAgain marks.now n rows.now codes.now flow.now verdicts.old verdicts.new }
{
    let mut keys = published_rows::blank_keys();
    let mut memory = published_rows::blank_memory();
    // A `while`: each line tells where the next one begins, so no slice or range has the lines that a `for` would go over.
    let mut j: usize = 0;
    let mut at: usize = 0;
    while at < marks.len() {
        let Some((m, k)) = marks::read::line(marks, at) else {
            return;
        };
        let b = verdicts[j];
        verdicts[j] = byte_again(m, b, n, rows, codes, flow, &mut keys, &mut memory);
        j += 1;
        at = k;
    }
}

// Judges each mark of the list on the program, whose facts and control-flow graph are lent: line j's verdict fills byte j. The rows have the
// widened uses afterwards.
pub fn judge(
    marks: &[u8],
    p: Program,
    rows: &mut [u64],
    codes: &[[u64; CODE_WORDS]],
    flow: &[u16],
    verdicts: &mut [u8],
)
    requires held { Held p × Known (statements p) p.count rows.old codes.now flow.now }
    requires some_taken { SomeTaken marks.now × (most ≤ length verdicts.old) }
    ensures { (ms : List MarkOf) → Taken marks.now ms → VerdictsOf (Widened (statements p) ms) (statements p) ms verdicts.old verdicts.new × KnownBy (Widened (statements p) ms) (statements p) p.count rows.new codes.now flow.now }
{
    let n = p.count;
    if verdicts::judge(marks, p, &*rows, codes, flow, verdicts) {
        widen(marks, rows, &*verdicts);
        judge_again(marks, n, &*rows, codes, flow, verdicts);
    }
}
