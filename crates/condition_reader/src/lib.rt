// Conditions: read from a text into their parts, with refusals 6 to 8.
#![tactic(auto)]

ghost use Rattle.std.specs.Prelude.{◌++◌, ◌≡◌, ◌≤◌, ◌<◌, length, drop, set};
ghost use Rattle.tokens.specs.Parsing.{parsed_end};
ghost use Rattle.condition.specs.Texts.{most_bytes, most_parts};
ghost use Rattle.condition.specs.Words.{word};
ghost use Rattle.operator_reader.specs.Parsing.{opening_of};
ghost use Rattle.condition_reader.specs.Reading.{number, ConditionRead};
ghost use Rattle.condition_reader.specs.Parsing.{parse_leaf, parse_unary, parse_binary, parse_bracketed, Tells, Reads, ReadsBy, TellsWhole, Ready};

use condition::{END, LEFT, MOST_BYTES, MOST_PARTS, START};
use operator_reader::Bracket;
use refusals::Numbered;

// The refusals of a condition's text, with their numbers of document 01.
#[derive(Clone, Copy)]
pub enum Refusal {
    Length,
    Misspelled,
    PartCount,
}

// The number of parts, and their words. All other words are zeros.
#[derive(Clone, Copy)]
pub struct Reading {
    pub count: u32,
    pub words: [u64; MOST_PARTS],
}

impl Numbered for Refusal {
    ghost number = { number };

    fn number(self) -> u8 {
        match self {
            Refusal::Length => 6,
            Refusal::Misspelled => 7,
            Refusal::PartCount => 8,
        }
    }
}

// One more part as a word, where there is room.
fn push(out: &mut [u64; MOST_PARTS], n: usize, code: u8, left: usize, start: usize, end: usize)
    requires left_le_most_bytes { (left ≤ most_bytes) × (start ≤ most_bytes) × (end ≤ most_bytes) }
    requires out_len { length out.old ≡ most_parts }
    ensures { out.new ≡ set out.old n (word code left start end) }
{
    if n < MOST_PARTS {
        out[n] = code as u64 + LEFT * (left as u64) + START * (start as u64) + END * (end as u64);
    }
}

// A condition that is an atom: the number of parts so far, and the position after it.
fn leaf(s: &[u8], at: usize, out: &mut [u64; MOST_PARTS], n: usize) -> Option<(usize, usize)>
    requires ready { Ready s.now at out.old n }
    requires at_in_bounds { at < length s.now }
    ensures tells { Tells (parse_leaf (drop at s.now)) s.now at out.old n out.new result }
    ensures result_in_bounds { parsed_end result ≤ length s.now }
{
    let (_, k) = atom_reader::atom(s, at)?;
    push(out, n, 0, 0, at, k);
    Some((n + 1, k))
}

// The condition at the position; its parts are numbered from n. Each reader below that calls another is called at one place, so that one
// condition within another takes one small frame of stack.
#[cycle(binary_bracketed_condition_unary)]
fn condition(s: &[u8], at: usize, out: &mut [u64; MOST_PARTS], n: usize) -> Option<(usize, usize)>
    requires { Ready s.now at out.old n }
    ensures reads { Reads s.now at out.old n out.new result }
    ensures result_in_bounds { parsed_end result ≤ length s.now }
{
    match *s.get(at)? {
        b'a'..=b'z' => leaf(s, at, out, n),
        _ => bracketed(s, at, out, n),
    }
}

// `(p & q)`, `E[p U q]` and the like; what begins with no bracket begins with a unary operator.
#[cycle(binary_bracketed_condition_unary)]
fn bracketed(s: &[u8], at: usize, out: &mut [u64; MOST_PARTS], n: usize) -> Option<(usize, usize)>
    requires ready { Ready s.now at out.old n }
    requires at_in_bounds { at < length s.now }
    ensures reads_by { ReadsBy (λ p. parse_bracketed p (drop at s.now)) s.now at out.old n out.new result }
    ensures result_in_bounds { parsed_end result ≤ length s.now }
{
    match operator_reader::opening(s, at) {
        Some((bracket, first)) => binary(s, at, first, bracket, out, n),
        None => unary(s, at, out, n),
    }
}

// `!p`, and `EX p` to `AM p`.
#[cycle(binary_bracketed_condition_unary)]
fn unary(s: &[u8], at: usize, out: &mut [u64; MOST_PARTS], n: usize) -> Option<(usize, usize)>
    requires ready { Ready s.now at out.old n }
    requires at_in_bounds { at < length s.now }
    ensures reads_by { ReadsBy (λ p. parse_unary p (drop at s.now)) s.now at out.old n out.new result }
    ensures result_in_bounds { parsed_end result ≤ length s.now }
{
    let (code, k) = operator_reader::prefix(s, at)?;
    let (m, next) = condition(s, k, out, n)?;
    push(out, m, code, 0, at, next);
    Some((m + 1, next))
}

// Two conditions with an operator between them, the first at `first`, and what closes the bracket.
#[cycle(binary_bracketed_condition_unary)]
fn binary(
    s: &[u8],
    at: usize,
    first: usize,
    bracket: Bracket,
    out: &mut [u64; MOST_PARTS],
    n: usize,
) -> Option<(usize, usize)>
    requires ready { Ready s.now at out.old n }
    requires at_in_bounds { at < length s.now }
    requires s_value { drop at s.now ≡ opening_of bracket ++ drop first s.now }
    ensures reads_by { ReadsBy (λ p. parse_binary bracket p (drop first s.now)) s.now at out.old n out.new result }
    ensures result_in_bounds { parsed_end result ≤ length s.now }
{
    let (m, k) = condition(s, first, out, n)?;
    let (code, second) = operator_reader::middle(s, k, bracket)?;
    let (m1, k1) = condition(s, second, out, m)?;
    let next = operator_reader::closing(s, k1, bracket)?;
    push(out, m1, code, m - 1, at, next);
    Some((m1 + 1, next))
}

// The number of parts of the condition that the whole text spells.
fn whole(text: &[u8], out: &mut [u64; MOST_PARTS]) -> Option<usize>
    requires text_len_bound { length text.now ≤ most_bytes }
    requires out_len { length out.old ≡ most_parts }
    ensures { TellsWhole text.now out.old out.new result }
{
    let (parts, next) = condition(text, 0, out, 0)?;
    if next < text.len() {
        return None;
    }
    Some(parts)
}

// The whole text is read before its parts are counted.
pub fn read(text: &[u8]) -> Result<Reading, Refusal>
    ensures { ConditionRead text.now result }
{
    if MOST_BYTES < text.len() {
        return Err(Refusal::Length);
    }
    let mut words = [0; MOST_PARTS];
    let Some(parts) = whole(text, &mut words) else {
        return Err(Refusal::Misspelled);
    };
    if MOST_PARTS < parts {
        return Err(Refusal::PartCount);
    }
    let count = parts as u32;
    Ok(Reading { count, words })
}
