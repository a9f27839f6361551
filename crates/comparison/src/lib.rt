// Two runs side by side: the lines of their steps, as many at a time as the lent bytes have room for. Before each step the variables that are
// live there are tested to agree.
#![tactic(auto)]

ghost use Rattle.std.specs.Prelude.{◌≡◌, ◌≤◌, ◌<◌, ◌+◌, length};
ghost use Rattle.language.specs.Spelling.{variables, spell_constant, spell_variable, ValidVariable, Valid};
ghost use Rattle.statement_writer.specs.Writing.{Put};
ghost use Rattle.program.specs.Program.{most, Targets, WellFormed};
ghost use Rattle.program.specs.Reading.{statements};
ghost use Rattle.liveness.specs.Liveness.{live_words};
ghost use Rattle.desk.specs.Columns.{padded};
ghost use Rattle.comparison.specs.Lines.{differs_columns, value_columns, pair_text, difference as differenceBytes, differences as differencesBytes, pair_line};
ghost use Rattle.comparison.specs.Stepping.{pair_room, pairs_room, line_room, Stepped};

use desk::columns::STATEMENT_COLUMNS;
use language::{CONSTANT_ROOM, Statement};
use machine::VALUES;
use program::Program;
use trace::{HEAD_ROOM, Progress};

// The columns of a variable that differs, and of a value.
const DIFFERS_COLUMNS: usize = 7;

const VALUE_COLUMNS: usize = CONSTANT_ROOM;
// A variable and its two values have room in this many bytes, and a line in this many.
const PAIR_ROOM: usize = 2 + DIFFERS_COLUMNS + 2 + VALUE_COLUMNS + 2 + VALUE_COLUMNS;

pub const LINE_ROOM: usize = HEAD_ROOM + 2 + STATEMENT_COLUMNS + VALUES * PAIR_ROOM + 1;

// The variable's name, filled with spaces to its columns.
fn variable(out: &mut [u8], at: usize, x: u8) -> usize
    requires valid_variable { ValidVariable x }
    requires differs_columns_in_bounds { at + differs_columns ≤ length out.old }
    ensures { Put out.old at (padded differs_columns (spell_variable x)) out.new result × (result ≡ at + differs_columns) }
{
    let k = statement_writer::variable(out, at, x);
    desk::columns::spaces(out, k, at + DIFFERS_COLUMNS - k)
}

// The same of a value.
fn value(out: &mut [u8], at: usize, v: u32) -> usize
    requires { at + value_columns ≤ length out.old }
    ensures { Put out.old at (padded value_columns (spell_constant v)) out.new result × (result ≡ at + value_columns) }
{
    let k = statement_writer::constant(out, at, v);
    desk::columns::spaces(out, k, at + VALUE_COLUMNS - k)
}

// Its value in the given program, then in the rewritten one.
fn pair(out: &mut [u8], at: usize, x: u8, v: u32, w: u32) -> usize
    requires valid_variable { ValidVariable x }
    requires pair_room_in_bounds { at + pair_room ≤ length out.old }
    ensures { Put out.old at (pair_text x v w) out.new result }
{
    let k1 = desk::columns::spaces(out, at, 2);
    let k2 = variable(out, k1, x);
    let k3 = desk::columns::spaces(out, k2, 2);
    let k4 = value(out, k3, v);
    let k5 = desk::columns::spaces(out, k4, 2);
    value(out, k5, w)
}

fn difference(out: &mut [u8], at: usize, x: usize, a: &[u32; VALUES], b: &[u32; VALUES]) -> usize
    requires x_lt_variables { x < variables }
    requires pair_room_in_bounds { at + pair_room ≤ length out.old }
    ensures { Put out.old at (differenceBytes x a.now b.now) out.new result }
{
    if a[x] == b[x] {
        return at;
    }
    pair(out, at, x as u8, a[x], b[x])
}

fn differences(out: &mut [u8], at: usize, a: &[u32; VALUES], b: &[u32; VALUES]) -> usize
    requires { at + pairs_room ≤ length out.old }
    ensures { Put out.old at (differencesBytes variables a.now b.now) out.new result }
{
    let mut to = at;
    for x in 0..VALUES {
        to = difference(out, to, x, a, b);
    }
    to
}

// Step k performs s of the given program at the place, and t of the rewritten one; a and b are the values after it.
fn line(
    out: &mut [u8],
    at: usize,
    k: u32,
    place: u32,
    s: Statement,
    t: Statement,
    a: &[u32; VALUES],
    b: &[u32; VALUES],
) -> usize
    requires valid { Valid s × Targets most s }
    requires valid_2 { Valid t × Targets most t }
    requires place_lt_most { place < most }
    requires line_room_in_bounds { at + line_room ≤ length out.old }
    ensures { Put out.old at (pair_line k place s t a.now b.now) out.new result × (result ≤ at + line_room) }
{
    let k1 = trace::head(out, at, k, place, s);
    let k2 = desk::columns::spaces(out, k1, 2);
    let k3 = desk::columns::statement(out, k2, STATEMENT_COLUMNS, t);
    let k4 = differences(out, k3, a, b);
    statement_writer::byte(out, k4, 10)
}

// Paused: the budget or the room is spent, and `at` is the place of the next statement. Ended: the last step ended both runs, and `at` is the
// place of its statement. Apart: a variable that is live in p differs before the next statement, whose place is `at`.
#[derive(Clone, Copy)]
pub enum Stop {
    Paused,
    Ended,
    Apart,
}

// Goes on with the runs of p and q, which stand before the statement at the place `at` after `done` steps. In `live` are the places at which
// each variable is live in p.
pub fn steps(
    p: Program,
    q: Program,
    live: &[u64],
    at: u32,
    done: u32,
    input: u32,
    budget: u32,
    values: &mut [u32; VALUES],
    others: &mut [u32; VALUES],
    out: &mut [u8],
) -> Progress<Stop>
    requires well_formed { WellFormed (statements p) }
    requires well_formed_2 { WellFormed (statements q) }
    requires q_len { length (statements q) ≡ length (statements p) }
    requires at_in_bounds { at < length (statements p) }
    requires live_len { length live.now ≡ live_words }
    ensures { Stepped (statements p) (statements q) live.now input budget done at values.old others.old out.old out.new values.new others.new result }
{
    let mut place = at;
    let mut to: usize = 0;
    for k in done..budget {
        if out.len() - to < LINE_ROOM {
            return Progress {
                bytes: to,
                at: place,
                done: k,
                stop: Stop::Paused,
            };
        }
        let i = place as usize;
        if !liveness::agree(live, i, &*values, &*others) {
            return Progress {
                bytes: to,
                at: place,
                done: k,
                stop: Stop::Apart,
            };
        }
        let e = p.entries[i];
        let s = encoding::statement_of(e);
        let f = q.entries[i];
        let t = encoding::statement_of(f);
        let old = *values;
        let other = *others;
        let next = machine::step(s, place, input, values);
        machine::step(t, place, input, others);
        let way = trace::way_on(next);
        match way {
            Some(n) => {
                to = line(out, to, k + 1, place, s, t, &*values, &*others);
                place = n;
            }
            None => {
                to = line(out, to, k + 1, place, s, t, &old, &other);
                *values = old;
                *others = other;
                return Progress {
                    bytes: to,
                    at: place,
                    done: k + 1,
                    stop: Stop::Ended,
                };
            }
        }
    }
    Progress {
        bytes: to,
        at: place,
        done: done.max(budget),
        stop: Stop::Paused,
    }
}
