// A start: the input, the budget and up to 64 starting values, one a line, read from any bytes. A value may name its variable.
#![tactic(auto)]

ghost use Rattle.std.specs.Prelude.{◌≡◌, ℕ, ◌≤◌, ◌<◌, ◌+◌, length, get_or, drop, replicate};
ghost use Rattle.language.specs.Spelling.{variables};
ghost use Rattle.tokens.specs.Parsing.{parsed, parsed_end};
ghost use Rattle.start.specs.Start.{StartRead, place as place_of, value as value_of, most};
ghost use Rattle.start.specs.Parsing.{parse_number_of, parse_named, parse_field};

use machine::VALUES;

// A start has at least the input and the budget, and at most a value for each variable behind them.
pub const FEWEST: usize = 2;

pub const MOST: usize = 2 + VALUES;

// What is wrong with a text. Few: under FEWEST lines. Many: more text after MOST right lines. Line: the number of the first line that is wrong.
// Unended: that of the last line, which is right but for its byte 10.
#[derive(Clone, Copy)]
pub enum Wrong {
    Few,
    Many,
    Line(u32),
    Unended(u32),
}

// What a line has: the number that is next, or a variable's value.
#[derive(Clone, Copy)]
pub enum Entry {
    Plain(u32),
    Named(u8, u32),
}

#[derive(Clone, Copy)]
pub struct Start {
    pub input: u32,
    pub budget: u32,
    pub values: [u32; VALUES],
}

// Number k by itself.
#[tactic(auto, unfolding(crate::specs::Parsing::parse_number_of))]
fn number(s: &[u8], at: usize, k: usize) -> Option<(u32, usize)>
    ensures result_value { parsed s.now result ≡ parse_number_of k (drop at s.now) }
    ensures result_in_bounds { parsed_end result ≤ length s.now }
{
    if k == 1 {
        return tokens::number(s, at);
    }
    tokens::constant(s, at)
}

// `i13 = 40`, for a variable that has no value yet where number k is next.
#[tactic(auto, unfolding(crate::specs::Parsing::parse_named))]
fn named(s: &[u8], at: usize, k: usize) -> Option<(Entry, usize)>
    ensures result_value { parsed s.now result ≡ parse_named k (drop at s.now) }
    ensures result_in_bounds { parsed_end result ≤ length s.now }
{
    if k < FEWEST {
        return None;
    }
    let (x, at) = tokens::variable(s, at)?;
    if 2 + (x as usize) < k {
        return None;
    }
    let at = tokens::word(s, at, b" = ")?;
    let (v, at) = tokens::constant(s, at)?;
    Some((Entry::Named(x, v), at))
}

// What a line has where number k is next, without its byte 10.
#[tactic(auto, unfolding(crate::specs::Parsing::parse_field, crate::specs::Parsing::parse_plain))]
fn field(s: &[u8], at: usize, k: usize) -> Option<(Entry, usize)>
    ensures result_value { parsed s.now result ≡ parse_field k (drop at s.now) }
    ensures result_in_bounds { parsed_end result ≤ length s.now }
{
    if MOST <= k {
        return named(s, at, k);
    }
    let Some((v, end)) = number(s, at, k) else {
        return named(s, at, k);
    };
    Some((Entry::Plain(v), end))
}

// Which number it is, where number k is next.
fn place(k: usize, e: Entry) -> usize
    ensures { result ≡ place_of k e }
{
    match e {
        Entry::Plain(_) => k,
        Entry::Named(x, _) => 2 + (x as usize),
    }
}

fn value(e: Entry) -> u32
    ensures { result ≡ value_of e }
{
    match e {
        Entry::Plain(v) => v,
        Entry::Named(_, v) => v,
    }
}

fn no_numbers() -> [u32; MOST]
    ensures { result ≡ replicate most 0 }
{
    [0; MOST]
}

// A value of 0 for each variable.
pub fn no_values() -> [u32; VALUES]
    ensures { result ≡ replicate variables 0 }
{
    [0; VALUES]
}

// The numbers after the input and the budget.
fn values_of(numbers: [u32; MOST]) -> [u32; VALUES]
    ensures { (length result ≡ variables) × ((x : ℕ) → x < variables → get_or result x 0 ≡ get_or numbers (2 + x) 0) }
{
    let mut values = no_values();
    values.copy_from_slice(&numbers[FEWEST..]);
    values
}

// The start whose lines the text is, or what is wrong with it. Number k is next after n lines.
pub fn read(s: &[u8]) -> Result<Start, Wrong>
    ensures { StartRead s.now result }
{
    let mut numbers = no_numbers();
    let mut at: usize = 0;
    let mut k: usize = 0;
    let mut n: usize = 0;
    // A `while`: each line tells where the next one begins, so no slice or range has the lines that a `for` would go over.
    while at < s.len() {
        if n == MOST {
            return Err(Wrong::Many);
        }
        let Some((e, end)) = field(s, at, k) else {
            return Err(Wrong::Line((n + 1) as u32));
        };
        let Some(next) = tokens::word(s, end, b"\n") else {
            if end == s.len() {
                return Err(Wrong::Unended((n + 1) as u32));
            }
            return Err(Wrong::Line((n + 1) as u32));
        };
        let p = place(k, e);
        numbers[p] = value(e);
        k = p + 1;
        n += 1;
        at = next;
    }
    if n < FEWEST {
        return Err(Wrong::Few);
    }
    Ok(Start {
        input: numbers[0],
        budget: numbers[1],
        values: values_of(numbers),
    })
}
