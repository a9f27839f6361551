// Traces: the lines of a run's steps, as many at a time as the lent bytes have room for.
#![tactic(auto)]

ghost use Rattle.std.specs.Prelude.{[], ◌≤◌, ◌<◌, ◌+◌, length};
ghost use Rattle.language.specs.Spelling.{ValidVariable, Valid};
ghost use Rattle.statement_writer.specs.Writing.{Put};
ghost use Rattle.program.specs.Program.{most, Targets, WellFormed};
ghost use Rattle.program.specs.Reading.{statements};
ghost use Rattle.trace.specs.Trace.{value_text as valueBytes, column_heads, assigned as assignedBytes, assignment as assignmentBytes, step_head, line_text};
ghost use Rattle.trace.specs.Stepping.{Leads, Traced, assigned_room, line_room, heads_room};

use desk::columns::{NUMBER_COLUMNS, STATEMENT_COLUMNS};
use language::{CONSTANT_ROOM, NUMBER_DIGITS, Statement, VARIABLE_ROOM};
use machine::{Next, VALUES};
use program::Program;

// The columns of a step's number.
const STEP_COLUMNS: usize = 7;
// What stands before the assigned value has room in this many bytes: a step's number may have more digits than its columns.
pub const HEAD_ROOM: usize = NUMBER_DIGITS + 2 + NUMBER_COLUMNS + 2 + STATEMENT_COLUMNS;
// A value, an assigned value with the words for the same value, and a line.
pub const VALUE_ROOM: usize = VARIABLE_ROOM + 3 + CONSTANT_ROOM;

const ASSIGNED_ROOM: usize = 2 + VALUE_ROOM + 12;

const LINE_ROOM: usize = HEAD_ROOM + ASSIGNED_ROOM + 1;

// The line over the columns, at the front of the lent bytes.
pub fn heads(out: &mut [u8]) -> usize
    requires { heads_room ≤ length out.old }
    ensures { Put out.old 0 column_heads out.new result }
{
    statement_writer::word(
        out,
        0,
        b"   step  line  statement                         assigned\n",
    )
}

// `i3 = 9`
pub fn value(out: &mut [u8], at: usize, x: u8, v: u32) -> usize
    requires { at + length (valueBytes x v) ≤ length out.old }
    ensures { Put out.old at (valueBytes x v) out.new result }
{
    let k1 = statement_writer::variable(out, at, x);
    let k2 = statement_writer::word(out, k1, b" = ");
    statement_writer::constant(out, k2, v)
}

// Two spaces and the variable's new value, and whether it is the old one.
fn assigned(out: &mut [u8], at: usize, x: u8, old: &[u32; VALUES], new: &[u32; VALUES]) -> usize
    requires valid_variable { ValidVariable x }
    requires assigned_room_in_bounds { at + assigned_room ≤ length out.old }
    ensures { Put out.old at (assignedBytes x old.now new.now) out.new result }
{
    let i = x as usize;
    let k1 = desk::columns::spaces(out, at, 2);
    let k2 = value(out, k1, x, new[i]);
    if old[i] == new[i] {
        return statement_writer::word(out, k2, b" (as before)");
    }
    k2
}

// The same of the variable that the statement assigns, if it does.
fn assignment(
    out: &mut [u8],
    at: usize,
    s: Statement,
    old: &[u32; VALUES],
    new: &[u32; VALUES],
) -> usize
    requires valid { Valid s }
    requires assigned_room_in_bounds { at + assigned_room ≤ length out.old }
    ensures { Put out.old at (assignmentBytes s old.now new.now) out.new result }
{
    match s {
        Statement::Read(x) => assigned(out, at, x, old, new),
        Statement::Write(_) => at,
        Statement::Assign(x, _) => assigned(out, at, x, old, new),
        Statement::Branch(_, _, _) => at,
        Statement::Skip => at,
    }
}

// Step k performs the statement s, which stands at the place.
pub fn head(out: &mut [u8], at: usize, k: u32, place: u32, s: Statement) -> usize
    requires place_lt_most { place < most }
    requires s_in_bounds { at + length (step_head k place s) ≤ length out.old }
    ensures { Put out.old at (step_head k place s) out.new result }
{
    let k1 = desk::columns::number(out, at, STEP_COLUMNS, k);
    let k2 = desk::columns::spaces(out, k1, 2);
    let k3 = desk::columns::number(out, k2, NUMBER_COLUMNS, place + 1);
    let k4 = desk::columns::spaces(out, k3, 2);
    desk::columns::statement(out, k4, STATEMENT_COLUMNS, s)
}

// The line of a step, by the values before and after it.
fn line(
    out: &mut [u8],
    at: usize,
    k: u32,
    place: u32,
    s: Statement,
    old: &[u32; VALUES],
    new: &[u32; VALUES],
) -> usize
    requires valid { Valid s }
    requires targets { Targets most s }
    requires place_lt_most { place < most }
    requires line_room_in_bounds { at + line_room ≤ length out.old }
    ensures { Put out.old at (line_text k place s (assignmentBytes s old.now new.now)) out.new result × (result ≤ at + line_room) }
{
    let k1 = head(out, at, k, place, s);
    let k2 = assignment(out, k1, s, old, new);
    statement_writer::byte(out, k2, 10)
}

// The line of a step that ends the run.
fn last_line(out: &mut [u8], at: usize, k: u32, place: u32, s: Statement) -> usize
    requires valid { Valid s }
    requires targets { Targets most s }
    requires place_lt_most { place < most }
    requires line_room_in_bounds { at + line_room ≤ length out.old }
    ensures { Put out.old at (line_text k place s []) out.new result × (result ≤ at + line_room) }
{
    let k1 = head(out, at, k, place, s);
    statement_writer::byte(out, k1, 10)
}

// Where a run stands after a step, if it goes on.
pub fn way_on(next: Next) -> Option<u32>
    ensures { Leads next result }
{
    match next {
        Next::Goto(t) => Some(t),
        Next::Finish(_) => None,
        Next::Fault(_) => None,
    }
}

// How far steps came: the bytes written, the place and the steps done, and why they stop.
#[derive(Clone, Copy)]
pub struct Progress<S> {
    pub bytes: usize,
    pub at: u32,
    pub done: u32,
    pub stop: S,
}

// Paused: the budget or the room is spent, and `at` is the place of the next statement. Ended: the last step ended the run, and `at` is the
// place of its statement.
#[derive(Clone, Copy)]
pub enum Stop {
    Paused,
    Ended,
}

// Goes on with a run that stands before the statement at the place `at` after `done` steps. A step that ends the run leaves the values.
pub fn steps(
    p: Program,
    at: u32,
    done: u32,
    input: u32,
    budget: u32,
    values: &mut [u32; VALUES],
    out: &mut [u8],
) -> Progress<Stop>
    requires well_formed { WellFormed (statements p) }
    requires at_in_bounds { at < length (statements p) }
    ensures { Traced (statements p) input budget done at values.old out.old out.new values.new result }
{
    let mut place = at;
    let mut to: usize = 0;
    for k in done..budget {
        if out.len() - to < LINE_ROOM {
            return Progress {
                bytes: to,
                at: place,
                done: k,
                stop: Stop::Paused,
            };
        }
        let i = place as usize;
        let e = p.entries[i];
        let s = encoding::statement_of(e);
        let mut new = *values;
        let next = machine::step(s, place, input, &mut new);
        let way = way_on(next);
        match way {
            Some(t) => {
                to = line(out, to, k + 1, place, s, &*values, &new);
                *values = new;
                place = t;
            }
            None => {
                to = last_line(out, to, k + 1, place, s);
                return Progress {
                    bytes: to,
                    at: place,
                    done: k + 1,
                    stop: Stop::Ended,
                };
            }
        }
    }
    Progress {
        bytes: to,
        at: place,
        done: done.max(budget),
        stop: Stop::Paused,
    }
}
