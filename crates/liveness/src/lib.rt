// The places at which each variable is live, found once for a program, and whether two runs hold the same in the variables that are live
// where they stand.
#![tactic(auto)]

ghost use Rattle.std.specs.Prelude.{◌≡◌, ◌↔◌, IsTrue, ◌&&◌, false, not, List, ℕ, ◌<◌, eqb, length, get_or, replicate};
ghost use Rattle.base.specs.Decides.{Decides};
ghost use Rattle.language.specs.Spelling.{variables, ValidVariable};
ghost use Rattle.language.specs.declared.Statement.{Statement};
ghost use Rattle.program.specs.Program.{most};
ghost use Rattle.bits.specs.Row.{member};
ghost use Rattle.labelling.specs.Labels.{Labelled};
ghost use Rattle.truth.specs.Truth.{SatBy};
ghost use Rattle.atoms.specs.Facts.{used_in};
ghost use Rattle.table.specs.Table.{part_words, row as row_in};
ghost use Rattle.table.specs.Known.{KnownIn, SomeKnown};
ghost use Rattle.lockstep.specs.Rules.{live as liveness};
ghost use Rattle.lockstep.specs.Lockstep.{Agree};
ghost use Rattle.published.specs.Published.{live_room};
ghost use Rattle.liveness.specs.Liveness.{live_words, LiveAt, LiveRows, LiveIn};

use codes::CODE_WORDS;
use machine::VALUES;
use published::LIVE_ROOM;
use table::WORDS;

// A row for each variable, one after the other.
pub const LIVE_WORDS: usize = WORDS * VALUES;

fn blank_text() -> [u8; LIVE_ROOM]
    ensures { length result ≡ live_room }
{
    [0; LIVE_ROOM]
}

// No variable is live anywhere.
pub fn blank() -> [u64; LIVE_WORDS]
    ensures { result ≡ replicate live_words 0 }
{
    [0; LIVE_WORDS]
}

// The places at which x is live, of the n statements that the facts and the graph are of: its condition is written, read and tabulated.
fn live_row(
    x: u8,
    n: usize,
    rows: &[u64],
    codes: &[[u64; CODE_WORDS]],
    flow: &[u16],
) -> [u64; WORDS]
    requires some_known { SomeKnown n rows.now codes.now flow.now }
    requires valid_variable { ValidVariable x }
    ensures { (length result ≡ part_words) × ((P : List Statement) → KnownIn P n rows.now codes.now flow.now → Labelled (length P) (member result) (SatBy (used_in rows.now) P (liveness x))) }
{
    let mut text = blank_text();
    let end = published::write_live(&mut text, 0, x);
    published_rows::row_of(&text[..end], n, rows, codes, flow)
}

// The same of every variable.
fn fill(n: usize, rows: &[u64], codes: &[[u64; CODE_WORDS]], flow: &[u16], live: &mut [u64])
    requires some_known { SomeKnown n rows.now codes.now flow.now }
    requires live_len { length live.old ≡ live_words }
    ensures { (P : List Statement) → KnownIn P n rows.now codes.now flow.now → (x : ℕ) → x < variables → LiveAt (used_in rows.now) P live.new x }
{
    for x in 0..VALUES {
        let row = live_row(x as u8, n, rows, codes, flow);
        let at = WORDS * x;
        let end = at + WORDS;
        live[at..end].copy_from_slice(&row);
    }
}

// The places at which each variable is live in the program with this text.
pub fn find(program: &[u8]) -> [u64; LIVE_WORDS]
    ensures { LiveIn program.now result }
{
    let mut live = blank();
    let Ok(p) = program::read(program) else {
        return live;
    };
    let mut rows = atoms::blank();
    let mut codes = atoms::blank_codes();
    atoms::find(p, &mut rows, &mut codes);
    let mut flow = flow::blank();
    flow::of(p, &mut flow);
    fill(p.count, &rows, &codes, &flow, &mut live);
    live
}

// Whether x is live at the place, and differs.
fn differs(live: &[u64], place: usize, x: usize, a: &[u32; VALUES], b: &[u32; VALUES]) -> bool
    requires { (x < variables) × (place < most) × (length live.now ≡ live_words) }
    ensures { result ≡ (not (eqb (get_or a.now x 0) (get_or b.now x 0)) && member (row_in live.now x) place) }
{
    if a[x] == b[x] {
        return false;
    }
    let begin = WORDS * x;
    let end = begin + WORDS;
    bits::contains(&live[begin..end], place)
}

// Whether no variable that is live at the place differs.
fn none_differs(live: &[u64], place: usize, a: &[u32; VALUES], b: &[u32; VALUES]) -> bool
    requires { (place < most) × (length live.now ≡ live_words) }
    ensures { IsTrue result ↔ ((x : ℕ) → x < variables → (not (eqb (get_or a.now x 0) (get_or b.now x 0)) && member (row_in live.now x) place) ≡ false) }
{
    (0..VALUES).all(|x| !differs(live, place, x, a, b))
}

// Whether every variable that is live at the place holds the same value in both.
pub fn agree(live: &[u64], place: usize, a: &[u32; VALUES], b: &[u32; VALUES]) -> bool
    requires { (place < most) × (length live.now ≡ live_words) }
    ensures { (P : List Statement) → LiveRows P live.now → place < length P → length a.now ≡ variables → length b.now ≡ variables → Decides result (Agree P place a.now b.now) }
{
    none_differs(live, place, a, b)
}
