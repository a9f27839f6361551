// The path that shows why a mark's condition is false at its statement, and what the path's last statement does.
#![tactic(auto)]

ghost use Rattle.std.specs.Prelude.{◌≡◌, not, ◌&&◌, List, ℕ, ◌+◌, ◌≤◌, ◌<◌, ltb, length};
ghost use Rattle.language.specs.Spelling.{ValidVariable, ValidExpression};
ghost use Rattle.language.specs.declared.Statement.{Statement as StatementOf};
ghost use Rattle.program.specs.Program.{at, most, row_words};
ghost use Rattle.bits.specs.Row.{member};
ghost use Rattle.ctl.specs.Paths.{So};
ghost use Rattle.flow.specs.FlowOf.{flow_at};
ghost use Rattle.truth.specs.Truth.{uses_of};
ghost use Rattle.table.specs.Rules.{direction, flow_steps, BothWays};
ghost use Rattle.departures.specs.Departures.{Departs, Left};
ghost use Rattle.atoms.specs.Facts.{used_in};
ghost use Rattle.marks.specs.Marks.{ValidMark};
ghost use Rattle.marks.specs.declared.Mark.{Mark as MarkOf};
ghost use Rattle.rewriting.specs.Verdicts.{Widened};
ghost use Rattle.refused_marks.specs.RefusedMarks.{SpoiltBy, Culprit, PathOf};
ghost use Rattle.refused_marks.specs.Ends.{Source, Untouched, Ends};
ghost use Rattle.refused_paths.specs.Searching.{variable_of, goes_back, FactsAt, Room, Rowed, Spoiling, Searches, Refused, SomeRefused};

use codes::CODE_WORDS;
use condition::Atom;
use language::{Expression, Statement};
use marks::Mark;

// What the last statement of a path does: the program uses X there, or an accepted `cse` alone does; it defines X, or a variable of A or E; or
// it is statement 1.
const USES: u32 = 1;

const REUSES: u32 = 2;

const DEFINES: u32 = 3;

const SPOILS: u32 = 4;

const STARTS: u32 = 5;

// How many words a path has, and what its last statement does.
#[derive(Clone, Copy)]
pub struct Shown {
    pub length: usize,
    pub culprit: u32,
}

// The places below n outside the row.
fn outside(n: usize, row: &[u64], out: &mut [u64])
    requires { (n ≤ most) × (length row.now ≡ row_words) × (length out.old ≡ row_words) }
    ensures { (t : ℕ) → member out.new t ≡ (ltb t n && not (member row.now t)) }
{
    let mut places = atoms::blank_row();
    bits::below(n, &mut places);
    bits::difference(&places, row, out);
}

// The places that define neither X nor a variable of the expression, but for the first.
fn untouched_row(
    x: u8,
    e: Expression,
    n: usize,
    rows: &[u64],
    codes: &[[u64; CODE_WORDS]],
    out: &mut [u64],
)
    requires { ValidVariable x × ValidExpression e × Room n rows.now codes.now × (length out.old ≡ row_words) }
    ensures { (P : List StatementOf) → FactsAt P n rows.now codes.now → Rowed n out.new (Untouched P x e) }
{
    let mut kept = atoms::blank_row();
    atoms::row(Atom::Trans(e), n, rows, codes, &mut kept);
    let mut defined = atoms::blank_row();
    atoms::row(Atom::Def(x), n, rows, codes, &mut defined);
    let mut rest = atoms::blank_row();
    bits::difference(&kept, &defined, &mut rest);
    let mut entry = atoms::blank_row();
    atoms::row(Atom::Entry, n, rows, codes, &mut entry);
    bits::difference(&rest, &entry, out);
}

// The places that copy the expression to X; where it is to be used again, those of them that keep its variables.
fn source_row(
    again: bool,
    x: u8,
    e: Expression,
    n: usize,
    rows: &[u64],
    codes: &[[u64; CODE_WORDS]],
    out: &mut [u64],
)
    requires { ValidVariable x × ValidExpression e × Room n rows.now codes.now × (length out.old ≡ row_words) }
    ensures { (P : List StatementOf) → FactsAt P n rows.now codes.now → Rowed n out.new (Source again P x e) }
{
    let copy = Atom::Stmt(Statement::Assign(x, e));
    if !again {
        atoms::row(copy, n, rows, codes, out);
        return;
    }
    let mut copies = atoms::blank_row();
    atoms::row(copy, n, rows, codes, &mut copies);
    let mut kept = atoms::blank_row();
    atoms::row(Atom::Trans(e), n, rows, codes, &mut kept);
    bits::intersection(&copies, &kept, out);
}

// Where the path of an `rpl` or a `cse` may pass, and where it may end.
fn spoilt_rows(
    again: bool,
    x: u8,
    e: Expression,
    n: usize,
    rows: &[u64],
    codes: &[[u64; CODE_WORDS]],
    through: &mut [u64],
    goal: &mut [u64],
)
    requires valid_variable { ValidVariable x × ValidExpression e × Room n rows.now codes.now }
    requires through_len { (length through.old ≡ row_words) × (length goal.old ≡ row_words) }
    ensures { (P : List StatementOf) → FactsAt P n rows.now codes.now → Spoiling again P x e n through.new goal.new }
{
    let mut sources = atoms::blank_row();
    source_row(again, x, e, n, rows, codes, &mut sources);
    outside(n, &sources, through);
    let mut untouched = atoms::blank_row();
    untouched_row(x, e, n, rows, codes, &mut untouched);
    bits::difference(&*through, &untouched, goal);
}

// Where the path of a mark may pass, and where it may end.
fn rows_for(
    m: Mark,
    n: usize,
    rows: &[u64],
    codes: &[[u64; CODE_WORDS]],
    through: &mut [u64],
    goal: &mut [u64],
)
    requires valid_mark { ValidMark m × Room n rows.now codes.now }
    requires through_len { (length through.old ≡ row_words) × (length goal.old ≡ row_words) }
    ensures { (P : List StatementOf) → FactsAt P n rows.now codes.now → Searches P m n rows.now through.new goal.new }
{
    match m {
        Mark::Rm(_, x, _) => {
            let mut defined = atoms::blank_row();
            atoms::row(Atom::Def(x), n, rows, codes, &mut defined);
            outside(n, &defined, through);
            atoms::row(Atom::Use(x), n, rows, codes, goal);
        }
        Mark::Rpl(_, x, a) => spoilt_rows(
            false,
            x,
            Expression::Single(a),
            n,
            rows,
            codes,
            through,
            goal,
        ),
        Mark::Cse(_, x, e) => spoilt_rows(true, x, e, n, rows, codes, through, goal),
    }
}

// What the statement at place t does to X or the expression, the first that applies.
fn spoilt_culprit(
    x: u8,
    e: Expression,
    n: usize,
    rows: &[u64],
    codes: &[[u64; CODE_WORDS]],
    t: usize,
) -> u32
    requires { ValidVariable x × ValidExpression e × Room n rows.now codes.now × (t < n) }
    ensures { (P : List StatementOf) → FactsAt P n rows.now codes.now → (Untouched P x e t → ⊥) → SpoiltBy (at P t) x e t result }
{
    let mut defined = atoms::blank_row();
    atoms::row(Atom::Def(x), n, rows, codes, &mut defined);
    if bits::contains(&defined, t) {
        return DEFINES;
    }
    let mut kept = atoms::blank_row();
    atoms::row(Atom::Trans(e), n, rows, codes, &mut kept);
    if !bits::contains(&kept, t) {
        return SPOILS;
    }
    STARTS
}

// What the statement at place t does, at which the path of the mark ends; `own` are the places at which the program itself uses the variable.
fn culprit_for(
    m: Mark,
    n: usize,
    rows: &[u64],
    codes: &[[u64; CODE_WORDS]],
    own: &[u64],
    t: usize,
) -> u32
    requires { ValidMark m × Room n rows.now codes.now × (length own.now ≡ row_words) × (t < n) }
    ensures { (P : List StatementOf) → FactsAt P n rows.now codes.now → Rowed n own.now (uses_of P (variable_of m)) → Ends (used_in rows.now) P m t → Culprit (used_in rows.now) P m t result }
{
    match m {
        Mark::Rm(_, _, _) => {
            if bits::contains(own, t) {
                return USES;
            }
            REUSES
        }
        Mark::Rpl(_, x, a) => spoilt_culprit(x, Expression::Single(a), n, rows, codes, t),
        Mark::Cse(_, x, e) => spoilt_culprit(x, e, n, rows, codes, t),
    }
}

fn goes_back(m: Mark) -> bool
    ensures { result ≡ goes_back m }
{
    match m {
        Mark::Rm(_, _, _) => false,
        Mark::Rpl(_, _, _) => true,
        Mark::Cse(_, _, _) => true,
    }
}

// A shortest way from s to the goal through the set, on the steps of its direction.
fn search(
    back: bool,
    n: usize,
    flow: &[u16],
    through: &[u64],
    goal: &[u64],
    s: usize,
    path: &mut [u32],
) -> usize
    requires both_ways { BothWays n flow.now × (n ≤ most) × (length through.now ≡ row_words) × (length goal.now ≡ row_words) × (n + 1 ≤ length path.old) }
    requires s_lt_n { (s < n) × (((ls : List ℕ) → Departs (flow_steps n (flow_at flow.now) (direction back)) (So (member through.now)) (So (member goal.now)) s ls → ⊥) → ⊥) }
    ensures { Left (flow_steps n (flow_at flow.now) (direction back)) (So (member through.now)) (So (member goal.now)) s path.old path.new result × (result ≤ n + 1) }
{
    let forward = &flow[..graph::ENTRIES];
    let backward = &flow[graph::ENTRIES..];
    if back {
        return departures::leave(n, backward, forward, through, goal, s, path);
    }
    departures::leave(n, forward, backward, through, goal, s, path)
}

// The path of a mark whose condition is false at its statement, of place s, on the n statements that the facts and the graph are of: it stands at
// the front of the lent words. `own` are the places at which the program itself uses the mark's variable.
pub fn path_of(
    m: Mark,
    n: usize,
    rows: &[u64],
    codes: &[[u64; CODE_WORDS]],
    flow: &[u16],
    own: &[u64],
    s: usize,
    path: &mut [u32],
) -> Shown
    requires { SomeRefused m n rows.now codes.now flow.now own.now s × (length own.now ≡ row_words) × (n + 1 ≤ length path.old) }
    ensures { ((P : List StatementOf) (ms : List MarkOf) → Refused P ms m n rows.now codes.now flow.now own.now → PathOf (Widened P ms) P m path.old path.new result.length result.culprit) × (result.length ≤ n + 1) }
{
    let mut through = atoms::blank_row();
    let mut goal = atoms::blank_row();
    rows_for(m, n, rows, codes, &mut through, &mut goal);
    let length = search(goes_back(m), n, flow, &through, &goal, s, path);
    let t = (path[length - 1] - 1) as usize;
    Shown {
        length: length,
        culprit: culprit_for(m, n, rows, codes, own, t),
    }
}
