// What is printed of a program and its rewritten one, from the bytes of the files: the program, the marks and the start in, and the text out,
// piece by piece, since the lines of a million steps don't fit one buffer.
#![tactic(auto)]

ghost use Rattle.std.specs.Prelude.{◌≡◌, List, ℕ, ◌≤◌, ◌<◌, length, take};
ghost use Rattle.language.specs.Spelling.{variables};
ghost use Rattle.program.specs.Program.{Taken, WellFormed};
ghost use Rattle.program.specs.Reading.{statements};
ghost use Rattle.judge.specs.Judge.{text_bytes};
ghost use Rattle.start.specs.Start.{StartTaken, StartWrong};
ghost use Rattle.side_by_side.specs.SideBySide.{side_by_side_room, at_stage, stays, Prints, Next};

use comparison::Stop;
use heading::Heading;
use judge::TEXT_BYTES;
use liveness::LIVE_WORDS;
use machine::VALUES;
use program::Program;
use run::MOST_STEPS;
use start::Wrong;

// Every piece has room in this many bytes.
pub const SIDE_BY_SIDE_ROOM: usize = comparison::LINE_ROOM;

// Begin: nothing is printed. Steps: the counts of the marks, and the lines of some steps. Closing: the lines of all steps. Ended: the
// outcomes too, which is all. Refused: a refusal, which is all.
#[derive(Clone, Copy)]
pub enum Stage {
    Begin,
    Steps,
    Closing,
    Ended,
    Refused,
}

// Where printing stands. In `Steps` both runs stand before the statement at the place `at` after `done` steps, with their values, and
// `bytes` is the length of the rewritten program's text, and `live` has where each variable is live in the given one; in any other stage all
// of these are 0.
#[derive(Clone, Copy)]
pub struct Position {
    pub stage: Stage,
    pub at: u32,
    pub done: u32,
    pub values: [u32; VALUES],
    pub others: [u32; VALUES],
    pub bytes: usize,
    pub live: [u64; LIVE_WORDS],
}

// The number of bytes of a piece, and where printing stands after it.
#[derive(Clone, Copy)]
pub struct Piece {
    pub bytes: usize,
    pub next: Position,
}

fn at_stage(stage: Stage) -> Position
    ensures { result ≡ at_stage stage }
{
    let none = start::no_values();
    let live = liveness::blank();
    Position {
        stage: stage,
        at: 0,
        done: 0,
        values: none,
        others: none,
        bytes: 0,
        live: live,
    }
}

// Where printing begins.
pub fn first() -> Position
    ensures { result ≡ at_stage Stage.Begin }
{
    at_stage(Stage::Begin)
}

// No bytes, and the same position.
fn stay(from: Position) -> Piece
    ensures { result ≡ stays from }
{
    Piece {
        bytes: 0,
        next: from,
    }
}

fn told(bytes: usize, stage: Stage) -> Piece
    ensures { result ≡ record { bytes = bytes; next = at_stage stage } }
{
    let next = at_stage(stage);
    Piece {
        bytes: bytes,
        next: next,
    }
}

// A start that is wrong is refused, whatever the program and the marks.
fn refused(wrong: Wrong, from: Position, out: &mut [u8]) -> Piece
    requires side_by_side_room_in_bounds { side_by_side_room ≤ length out.old }
    ensures { (t m u w : List ℕ) → StartWrong u wrong → Prints t m u from w w out.old out.new result }
{
    let stage = from.stage;
    match stage {
        Stage::Begin => {
            let n = start_refusal::write(out, Some(wrong));
            told(n, Stage::Refused)
        }
        Stage::Steps => stay(from),
        Stage::Closing => stay(from),
        Stage::Ended => stay(from),
        Stage::Refused => stay(from),
    }
}

// The refusal of the budget, the program or the marks; or the counts, and where each variable is live.
fn heading(
    program: &[u8],
    marks: &[u8],
    values: [u32; VALUES],
    budget: u32,
    new: &mut [u8],
    out: &mut [u8],
) -> Piece
    requires side_by_side_room_in_bounds { side_by_side_room ≤ length out.old }
    requires text_bytes_in_bounds { text_bytes ≤ length new.old }
    ensures { (u : List ℕ) (input : ℕ) → StartTaken u input budget values → Prints program.now marks.now u (at_stage Stage.Begin) new.old new.new out.old out.new result }
{
    let head = heading::write(program, marks, budget, new, out);
    match head {
        Heading::Refused(n) => told(n, Stage::Refused),
        Heading::Judged(n, bytes) => {
            let live = liveness::find(program);
            Piece {
                bytes: n,
                next: Position {
                    stage: Stage::Steps,
                    at: 0,
                    done: 0,
                    values: values,
                    others: values,
                    bytes: bytes,
                    live: live,
                },
            }
        }
        Heading::NoRoom => told(0, Stage::Begin),
    }
}

// The lines of further steps of p and q, from the position on. Live variables always agree: a run in which they didn't would end there.
fn step_lines(
    p: Program,
    q: Program,
    from: Position,
    input: u32,
    budget: u32,
    out: &mut [u8],
) -> Piece
    requires well_formed { WellFormed (statements p) }
    requires well_formed_2 { WellFormed (statements q) }
    requires q_len { length (statements q) ≡ length (statements p) }
    requires at_in_bounds { from.at < length (statements p) }
    requires side_by_side_room_in_bounds { side_by_side_room ≤ length out.old }
    requires stage_value { from.stage ≡ Stage.Steps }
    ensures { (t m u w values : List ℕ) → StartTaken u input budget values → Taken t (statements p) → Taken (take from.bytes w) (statements q) → Prints t m u from w w out.old out.new result }
{
    let mut values = from.values;
    let mut others = from.others;
    let live = from.live;
    let r = comparison::steps(
        p,
        q,
        &live,
        from.at,
        from.done,
        input,
        budget,
        &mut values,
        &mut others,
        out,
    );
    match r.stop {
        Stop::Apart => return told(r.bytes, Stage::Refused),
        Stop::Ended => return told(r.bytes, Stage::Closing),
        Stop::Paused => {}
    }
    if budget <= r.done {
        return told(r.bytes, Stage::Closing);
    }
    Piece {
        bytes: r.bytes,
        next: Position {
            stage: Stage::Steps,
            at: r.at,
            done: r.done,
            values: values,
            others: others,
            bytes: from.bytes,
            live: live,
        },
    }
}

// Reads both programs anew.
fn lines(
    program: &[u8],
    from: Position,
    input: u32,
    budget: u32,
    new: &[u8],
    out: &mut [u8],
) -> Piece
    requires side_by_side_room_in_bounds { side_by_side_room ≤ length out.old }
    requires stage_value { from.stage ≡ Stage.Steps }
    ensures { (m u values : List ℕ) → StartTaken u input budget values → Prints program.now m u from new.now new.now out.old out.new result }
{
    let end = from.bytes;
    if new.len() < end {
        return stay(from);
    }
    let Ok(p) = program::read(program) else {
        return stay(from);
    };
    let Ok(q) = program::read(&new[..end]) else {
        return stay(from);
    };
    if q.count != p.count {
        return stay(from);
    }
    if p.count <= from.at as usize {
        return stay(from);
    }
    step_lines(p, q, from, input, budget, out)
}

// The outcomes. The marks are judged anew: that both agree is known of the text that is run.
fn closing(
    program: &[u8],
    marks: &[u8],
    from: Position,
    values: [u32; VALUES],
    input: u32,
    budget: u32,
    new: &mut [u8],
    out: &mut [u8],
) -> Piece
    requires side_by_side_room_in_bounds { side_by_side_room ≤ length out.old }
    requires stage_value { from.stage ≡ Stage.Closing }
    requires values_len { length values ≡ variables }
    requires text_bytes_in_bounds { text_bytes ≤ length new.old }
    ensures { (u : List ℕ) → StartTaken u input budget values → Prints program.now marks.now u from new.old new.new out.old out.new result }
{
    if MOST_STEPS < budget {
        return stay(from);
    }
    let mut verdicts = judge::verdict_buffer();
    let answer = judge::judge(program, marks, &mut verdicts, new);
    match answer {
        Err(_) => stay(from),
        Ok(judged) => {
            let end = judged.bytes as usize;
            let n = closing::write(out, program, &new[..end], values, input, budget);
            told(n, Stage::Ended)
        }
    }
}

// The start is taken.
fn taken(
    program: &[u8],
    marks: &[u8],
    from: Position,
    values: [u32; VALUES],
    input: u32,
    budget: u32,
    new: &mut [u8],
    out: &mut [u8],
) -> Piece
    requires side_by_side_room_in_bounds { side_by_side_room ≤ length out.old }
    requires text_bytes_in_bounds { text_bytes ≤ length new.old }
    requires values_len { length values ≡ variables }
    ensures { (u : List ℕ) → StartTaken u input budget values → Prints program.now marks.now u from new.old new.new out.old out.new result }
{
    let stage = from.stage;
    match stage {
        Stage::Begin => heading(program, marks, values, budget, new, out),
        Stage::Steps => lines(program, from, input, budget, &*new, out),
        Stage::Closing => closing(program, marks, from, values, input, budget, new, out),
        Stage::Ended => stay(from),
        Stage::Refused => stay(from),
    }
}

// Puts the piece that follows the position at the front of `out`. In `new` stands the rewritten program's text from `Begin` on.
pub fn next(
    program: &[u8],
    marks: &[u8],
    start: &[u8],
    from: Position,
    new: &mut [u8],
    out: &mut [u8],
) -> Piece
    ensures { Next program.now marks.now start.now from new.old new.new out.old out.new result }
{
    if out.len() < SIDE_BY_SIDE_ROOM {
        return stay(from);
    }
    if new.len() < TEXT_BYTES {
        return stay(from);
    }
    match start::read(start) {
        Ok(read) => {
            let values = read.values;
            taken(
                program,
                marks,
                from,
                values,
                read.input,
                read.budget,
                new,
                out,
            )
        }
        Err(wrong) => refused(wrong, from, out),
    }
}
