// Transcripts: all that is printed of a run, from the program's and the start's bytes. It is handed out piece by piece, since a trace of a
// million lines doesn't fit one buffer.
#![tactic(auto)]

ghost use Rattle.std.specs.Prelude.{◌≡◌, true, ◌≤◌, length};
ghost use Rattle.transcript.specs.Transcript.{is_over, beginning, at_stage, transcript_room, Hands};
ghost use Rattle.transcript.specs.Pieces.{RunRead, stage_after, Tells};

use desk::Failure;
use machine::VALUES;
use outcome::OUTCOME_ROOM;
use program::Program;
use trace::Stop;

// A piece needs this many bytes: those of the longest outcome, in which a trace's longest line has room too.
pub const TRANSCRIPT_ROOM: usize = OUTCOME_ROOM;

// Begin: nothing was handed out. Steps: the line over the columns was, and lines of the run's steps. Outcome: the lines of all its steps were, and it ended. Ended: all
// was, of a result. Refused: all was, of a refusal.
#[derive(Clone, Copy)]
pub enum Stage {
    Begin,
    Steps,
    Outcome,
    Ended,
    Refused,
}

// How far printing has come. At `Steps` the run stands before the statement at the place, after so many steps and with these values; at
// `Outcome` it stood so before its last step.
#[derive(Clone, Copy)]
pub struct Position {
    pub stage: Stage,
    pub at: u32,
    pub done: u32,
    pub values: [u32; VALUES],
}

// The bytes of a piece, and the position after it.
#[derive(Clone, Copy)]
pub struct Piece {
    pub bytes: usize,
    pub next: Position,
}

// The run that the texts ask for, where both are taken.
#[derive(Clone, Copy)]
struct Run {
    program: Program,
    input: u32,
    budget: u32,
    values: [u32; VALUES],
}

pub fn first() -> Position
    ensures { result ≡ beginning }
{
    Position {
        stage: Stage::Begin,
        at: 0,
        done: 0,
        values: start::no_values(),
    }
}

// Whether all was handed out.
pub fn over(p: Position) -> bool
    ensures { result ≡ is_over p.stage }
{
    matches!(p.stage, Stage::Ended | Stage::Refused)
}

fn at_stage(p: Position, stage: Stage) -> Position
    ensures { result ≡ at_stage stage p }
{
    let values = p.values;
    Position {
        stage: stage,
        at: p.at,
        done: p.done,
        values: values,
    }
}

// The outcome, or the refusal in words, and with it the end.
fn tell(program: &[u8], start: &[u8], from: Position, out: &mut [u8]) -> Piece
    requires { transcript_room ≤ length out.old }
    ensures { Tells program.now start.now from out.old out.new result }
{
    match outcome::outcome(program, start, out) {
        Ok(n) => Piece {
            bytes: n,
            next: at_stage(from, Stage::Ended),
        },
        Err(Failure::Refused(n)) => Piece {
            bytes: n,
            next: at_stage(from, Stage::Refused),
        },
        Err(Failure::NoRoom) => Piece {
            bytes: 0,
            next: from,
        },
    }
}

fn run_of(program: &[u8], start: &[u8]) -> Option<Run>
    ensures { RunRead program.now start.now result }
{
    let Ok(taken) = start::read(start) else {
        return None;
    };
    let Ok(program) = program::read(program) else {
        return None;
    };
    if run::MOST_STEPS < taken.budget {
        return None;
    }
    let values = taken.values;
    Some(Run {
        program,
        input: taken.input,
        budget: taken.budget,
        values,
    })
}

// The line over the columns, where the run stands before its first statement; one that is refused is told at once.
fn begin(program: &[u8], start: &[u8], from: Position, out: &mut [u8]) -> Piece
    requires stage_value { from.stage ≡ Stage.Begin }
    requires transcript_room_in_bounds { transcript_room ≤ length out.old }
    ensures { Hands program.now start.now true from out.old out.new result }
{
    let Some(run) = run_of(program, start) else {
        return tell(program, start, from, out);
    };
    let values = run.values;
    Piece {
        bytes: trace::heads(out),
        next: Position {
            stage: Stage::Steps,
            at: 0,
            done: 0,
            values: values,
        },
    }
}

fn stage_after(stop: Stop) -> Stage
    ensures { result ≡ stage_after stop }
{
    match stop {
        Stop::Ended => Stage::Outcome,
        Stop::Paused => Stage::Steps,
    }
}

// Lines of further steps, or the outcome where the budget is spent.
fn steps(program: &[u8], start: &[u8], trace: bool, from: Position, out: &mut [u8]) -> Piece
    requires stage_value { from.stage ≡ Stage.Steps }
    requires transcript_room_in_bounds { transcript_room ≤ length out.old }
    ensures { Hands program.now start.now trace from out.old out.new result }
{
    let Some(run) = run_of(program, start) else {
        return tell(program, start, from, out);
    };
    if run.program.count <= from.at as usize || run.budget <= from.done {
        return tell(program, start, from, out);
    }
    let mut values = from.values;
    let p = run.program;
    let r = trace::steps(
        p,
        from.at,
        from.done,
        run.input,
        run.budget,
        &mut values,
        out,
    );
    Piece {
        bytes: r.bytes,
        next: Position {
            stage: stage_after(r.stop),
            at: r.at,
            done: r.done,
            values: values,
        },
    }
}

// The next piece of what is printed of the run of the program's text from the start's text.
pub fn next(program: &[u8], start: &[u8], trace: bool, from: Position, out: &mut [u8]) -> Piece
    ensures { Hands program.now start.now trace from out.old out.new result }
{
    if out.len() < TRANSCRIPT_ROOM {
        return Piece {
            bytes: 0,
            next: from,
        };
    }
    match from.stage {
        Stage::Begin => {
            if trace {
                return begin(program, start, from, out);
            }
            tell(program, start, from, out)
        }
        Stage::Steps => steps(program, start, trace, from, out),
        Stage::Outcome => tell(program, start, from, out),
        Stage::Ended | Stage::Refused => Piece {
            bytes: 0,
            next: from,
        },
    }
}
