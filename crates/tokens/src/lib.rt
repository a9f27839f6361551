// Readers of words, numbers and variables: each takes what stands at a position of a text, and answers the value and the position after it.
#![tactic(auto)]

ghost use Rattle.std.specs.Prelude.{◌≡◌, length, drop, ◌≤◌, ◌<◌};
ghost use Rattle.language.specs.Spelling.{largest};
ghost use Rattle.tokens.specs.Parsing.{parse_word, passed, passed_end, parsed, parsed_end, digit_of, parse_zero, parse_digits, parse_number, parse_negative, parse_constant, parse_statement_number, parse_variable};

use language::{LARGEST, VARIABLES};

// The position after the word w, where it stands at the position.
pub fn word(s: &[u8], at: usize, w: &[u8]) -> Option<usize>
    ensures result_value { passed s.now result ≡ parse_word w.now (drop at s.now) }
    ensures result_in_bounds { 0 < length w.now → passed_end result ≤ length s.now }
{
    let mut k = at;
    for c in w {
        if s.get(k)? != c {
            return None;
        }
        k += 1;
    }
    Some(k)
}

// The value of a decimal digit.
fn digit_of(c: u8) -> Option<u64>
    ensures { result ≡ digit_of c }
{
    if c.is_ascii_digit() {
        Some((c - b'0') as u64)
    } else {
        None
    }
}

// A decimal number without leading zeros, with all the digits that follow one another there.
pub fn number(s: &[u8], at: usize) -> Option<(u32, usize)>
    ensures result_value { parsed s.now result ≡ parse_number (drop at s.now) }
    ensures result_in_bounds { parsed_end result ≤ length s.now }
{
    let first = digit_of(*s.get(at)?)?;
    if first == 0 {
        zero(s, at + 1)
    } else {
        digits(s, at + 1, first)
    }
}

// The number 0, unless a digit follows.
fn zero(s: &[u8], at: usize) -> Option<(u32, usize)>
    requires { at ≤ length s.now }
    ensures result_value { parsed s.now result ≡ parse_zero (drop at s.now) }
    ensures result_in_bounds { parsed_end result ≤ length s.now }
{
    match s.get(at) {
        None => Some((0, at)),
        Some(c) => match digit_of(*c) {
            Some(_) => None,
            None => Some((0, at)),
        },
    }
}

// The digits that follow the number read so far.
fn digits(s: &[u8], at: usize, first: u64) -> Option<(u32, usize)>
    requires at_in_bounds { at ≤ length s.now }
    requires first_le_largest { first ≤ largest }
    ensures result_value { parsed s.now result ≡ parse_digits first (drop at s.now) }
    ensures result_in_bounds { parsed_end result ≤ length s.now }
{
    let mut n = first;
    for k in at..s.len() {
        let Some(d) = digit_of(s[k]) else {
            return Some((n as u32, k));
        };
        n = n * 10 + d;
        if LARGEST < n {
            return None;
        }
    }
    Some((n as u32, s.len()))
}

// The bits of the constant whose digits follow a `-`. The least one has no counterpart above zero.
#[tactic(auto, unfolding(crate::specs::Parsing::parse_negative))]
fn negative(s: &[u8], at: usize) -> Option<(u32, usize)>
    ensures result_value { parsed s.now result ≡ parse_negative (drop at s.now) }
    ensures result_in_bounds { parsed_end result ≤ length s.now }
{
    match number(s, at) {
        Some((0, _)) => None,
        Some((n, end)) => Some((4294967295 - n + 1, end)),
        None => {
            let end = word(s, at, b"2147483648")?;
            Some((2147483648, end))
        }
    }
}

// The bits of a constant. Its sign is looked for only where no digit stands.
#[tactic(auto, unfolding(crate::specs::Parsing::parse_constant))]
pub fn constant(s: &[u8], at: usize) -> Option<(u32, usize)>
    ensures result_value { parsed s.now result ≡ parse_constant (drop at s.now) }
    ensures result_in_bounds { parsed_end result ≤ length s.now }
{
    match number(s, at) {
        Some(found) => Some(found),
        None => {
            let end = word(s, at, b"-")?;
            negative(s, end)
        }
    }
}

pub fn statement_number(s: &[u8], at: usize) -> Option<(u32, usize)>
    ensures result_value { parsed s.now result ≡ parse_statement_number (drop at s.now) }
    ensures result_in_bounds { parsed_end result ≤ length s.now }
{
    number(s, at)
}

#[tactic(auto, unfolding(crate::specs::Parsing::parse_variable))]
pub fn variable(s: &[u8], at: usize) -> Option<(u8, usize)>
    ensures result_value { parsed s.now result ≡ parse_variable (drop at s.now) }
    ensures result_in_bounds { parsed_end result ≤ length s.now }
{
    let begin = word(s, at, b"i")?;
    let (n, end) = number(s, begin)?;
    if n < VARIABLES {
        Some((n as u8, end))
    } else {
        None
    }
}
