// What a run answers, as a line.
#![tactic(auto)]

ghost use Rattle.std.specs.Prelude.{◌≤◌, ◌+◌, ◌*◌, length};
ghost use Rattle.statement_writer.specs.Writing.{Put};
ghost use Rattle.language.specs.Kept.{kept_count};
ghost use Rattle.language.specs.Spelling.{digits};
ghost use Rattle.answer_line.specs.AnswerLine.{spaced_values, ticks_text, steps_text, fault_line, spent_line, line_of_answer, spaced_room, ticks_room, steps_room, answer_room, fault_room, spent_room, room_of_line};

use language::{KEPT, NUMBER_DIGITS};
use machine::Answer;

// A number of 64 bits has at most this many digits, and the ticks have room in this many bytes.
const LONG_DIGITS: usize = 20;

const TICKS_ROOM: usize = 7 + LONG_DIGITS;

// The line of a run that is spent has room in this many bytes.
pub const SPENT_ROOM: usize = 9 + NUMBER_DIGITS + TICKS_ROOM + 1;

// The kept values, each after a space.
fn spaced(out: &mut [u8], at: usize, kept: &[u32; KEPT]) -> usize
    requires { at + kept_count * spaced_room ≤ length out.old }
    ensures { Put out.old at (spaced_values kept_count kept.now) out.new result × (result ≤ at + kept_count * spaced_room) }
{
    let mut to = at;
    for value in kept {
        let k = statement_writer::byte(out, to, b' ');
        to = statement_writer::constant(out, k, *value);
    }
    to
}

// The number in decimal digits.
fn long(out: &mut [u8], at: usize, n: u64) -> usize
    requires { at + length (digits n) ≤ length out.old }
    ensures { Put out.old at (digits n) out.new result }
{
    if let Ok(short) = u32::try_from(n) {
        return statement_writer::number(out, at, short);
    }
    let k = long(out, at, n / 10);
    statement_writer::byte(out, k, b'0' + (n % 10) as u8)
}

// ` ticks 36`
fn ticks(out: &mut [u8], at: usize, t: u64) -> usize
    requires { at + ticks_room ≤ length out.old }
    ensures { Put out.old at (ticks_text t) out.new result × (result ≤ at + ticks_room) }
{
    let k = statement_writer::word(out, at, b" ticks ");
    long(out, k, t)
}

// ` steps 12 ticks 36`
fn steps(out: &mut [u8], at: usize, k: u32, t: u64) -> usize
    requires { at + steps_room ≤ length out.old }
    ensures { Put out.old at (steps_text k t) out.new result × (result ≤ at + steps_room) }
{
    let k1 = statement_writer::word(out, at, b" steps ");
    let k2 = statement_writer::number(out, k1, k);
    ticks(out, k2, t)
}

// `ended 9 steps 12 ticks 36 kept 5 7 0 0 0 0 0 -1`
fn ended(out: &mut [u8], at: usize, v: i32, k: u32, t: u64, kept: &[u32; KEPT]) -> usize
    requires { at + answer_room ≤ length out.old }
    ensures { Put out.old at (line_of_answer (Answer.Ended v k t) kept.now) out.new result × (result ≤ at + answer_room) }
{
    let k1 = statement_writer::word(out, at, b"ended ");
    let k2 = desk::columns::signed(out, k1, v);
    let k3 = steps(out, k2, k, t);
    let k4 = statement_writer::word(out, k3, b" kept");
    let k5 = spaced(out, k4, kept);
    statement_writer::byte(out, k5, 10)
}

// `fault at 2 steps 2 ticks 28`
fn fault(out: &mut [u8], at: usize, n: u32, k: u32, t: u64) -> usize
    requires { at + fault_room ≤ length out.old }
    ensures { Put out.old at (fault_line n k t) out.new result × (result ≤ at + fault_room) }
{
    let told = statement_writer::word(out, at, b"fault at ");
    let there = statement_writer::number(out, told, n);
    let end = steps(out, there, k, t);
    statement_writer::byte(out, end, 10)
}

// `spent at 4 ticks 32`
fn spent(out: &mut [u8], at: usize, n: u32, t: u64) -> usize
    requires { at + spent_room ≤ length out.old }
    ensures { Put out.old at (spent_line n t) out.new result × (result ≤ at + spent_room) }
{
    let k1 = statement_writer::word(out, at, b"spent at ");
    let k2 = statement_writer::number(out, k1, n);
    let k3 = ticks(out, k2, t);
    statement_writer::byte(out, k3, 10)
}

// The line of what a run answers, with the kept values beside the answer.
pub fn write(out: &mut [u8], at: usize, a: Answer, kept: &[u32; KEPT]) -> usize
    requires { at + answer_room ≤ length out.old }
    ensures { Put out.old at (line_of_answer a kept.now) out.new result × (result ≤ at + room_of_line a) }
{
    match a {
        Answer::Ended(v, k, t) => ended(out, at, v, k, t, kept),
        Answer::Fault(n, k, t) => fault(out, at, n, k, t),
        Answer::Spent(n, t) => spent(out, at, n, t),
    }
}
