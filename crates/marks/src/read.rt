// The readers of marks: each takes what stands at a position of a text, and answers the position after it.
ghost use Rattle.std.specs.Prelude.{◌≡◌, List, ◌≤◌, length, drop};
ghost use Rattle.tokens.specs.Parsing.{parse_word, parsed, parsed_end, passed, passed_end};
ghost use Rattle.marks.specs.Reading.{begin_of, Taken, MarkLineRead, ListRead, SpanRead};
ghost use Rattle.marks.specs.declared.Mark.{Mark as MarkOf};
ghost use Rattle.marks.specs.Parsing.{parse_front, end_word, parse_computed, parse_rpl, parse_kind, parse_mark_line};

use crate::{MOST, Mark, Refusal};

// The word w, the variable and `, `.
#[tactic(auto, unfolding(crate::specs::Parsing::parse_front))]
fn front(s: &[u8], at: usize, w: &[u8]) -> Option<(u8, usize)>
    ensures result_value { parsed s.now result ≡ parse_front w.now (drop at s.now) }
    ensures result_in_bounds { parsed_end result ≤ length s.now }
{
    let at = tokens::word(s, at, w)?;
    let (x, at) = tokens::variable(s, at)?;
    let at = tokens::word(s, at, b", ")?;
    Some((x, at))
}

// The `)` and the byte 10 at the end of a mark's line.
fn ended(s: &[u8], at: usize) -> Option<usize>
    ensures result_value { passed s.now result ≡ parse_word end_word (drop at s.now) }
    ensures result_in_bounds { passed_end result ≤ length s.now }
{
    tokens::word(s, at, b")\n")
}

// `rm, X, E)` or, where it computes again, `cse, T, E)` of a mark on statement n: its word is w.
#[tactic(auto, unfolding(crate::specs::Parsing::parse_tail))]
fn computed(s: &[u8], at: usize, w: &[u8], n: u32, again: bool) -> Option<(Mark, usize)>
    ensures result_value { parsed s.now result ≡ parse_computed w.now again n (drop at s.now) }
    ensures result_in_bounds { parsed_end result ≤ length s.now }
{
    let (x, at) = front(s, at, w)?;
    let (e, at) = statement_reader::expression(s, at)?;
    let at = ended(s, at)?;
    if again {
        Some((Mark::Cse(n, x, e), at))
    } else {
        Some((Mark::Rm(n, x, e), at))
    }
}

// `rpl, X, A)` of a mark on statement n.
#[tactic(auto, unfolding(crate::specs::Parsing::parse_tail))]
fn rpl(s: &[u8], at: usize, n: u32) -> Option<(Mark, usize)>
    ensures result_value { parsed s.now result ≡ parse_rpl n (drop at s.now) }
    ensures result_in_bounds { parsed_end result ≤ length s.now }
{
    let (x, at) = front(s, at, b"rpl, ")?;
    let (a, at) = statement_reader::operand(s, at)?;
    let at = ended(s, at)?;
    Some((Mark::Rpl(n, x, a), at))
}

// What follows `mark(` of a mark on statement n, by the second byte of its kind.
fn kind(s: &[u8], at: usize, n: u32) -> Option<(Mark, usize)>
    requires { at ≤ length s.now }
    ensures result_value { parsed s.now result ≡ parse_kind n (drop at s.now) }
    ensures result_in_bounds { parsed_end result ≤ length s.now }
{
    if s.len() - at < 2 {
        return None;
    }
    match s[at + 1] {
        b'm' => computed(s, at, b"rm, ", n, false),
        b'p' => rpl(s, at, n),
        _ => computed(s, at, b"cse, ", n, true),
    }
}

// A mark and its byte 10.
#[tactic(auto, unfolding(crate::specs::Parsing::parse_mark_line))]
fn mark(s: &[u8], at: usize) -> Option<(Mark, usize)>
    ensures result_value { parsed s.now result ≡ parse_mark_line (drop at s.now) }
    ensures result_in_bounds { parsed_end result ≤ length s.now }
{
    let (n, at) = tokens::statement_number(s, at)?;
    let at = tokens::word(s, at, b": mark(")?;
    kind(s, at, n)
}

// The line at the position: the valid mark that it spells and the position after its byte 10, or that it spells none.
pub fn line(s: &[u8], at: usize) -> Option<(Mark, usize)>
    ensures { MarkLineRead s.now at result }
{
    mark(s, at)
}

// The number of marks that the text lists, or the first refusal that applies: every line is read, also beyond the most.
pub fn check(s: &[u8]) -> Result<u32, Refusal>
    ensures { ListRead s.now result }
{
    let mut count: usize = 0;
    let mut at: usize = 0;
    // A `while`: each line tells where the next one begins, so no slice or range has the lines that a `for` would go over.
    while at < s.len() {
        let Some((_, next)) = line(s, at) else {
            return Err(Refusal::Misspelled);
        };
        count += 1;
        at = next;
    }
    if MOST < count {
        return Err(Refusal::LineCount);
    }
    Ok(count as u32)
}

// Where line j of a list that is taken begins, or its end where there is none: each line is read where it stands.
fn begin_of(s: &[u8], j: usize) -> usize
    ensures { (ms : List MarkOf) → Taken s.now ms → result ≡ begin_of ms j }
{
    let mut at: usize = 0;
    for i in 0..j {
        if s.len() <= at {
            return at;
        }
        let Some((_, next)) = line(s, at) else {
            return at;
        };
        at = next;
    }
    at
}

// Where line j, counted from 0, begins and ends, or the first refusal that applies to the list.
pub fn span(s: &[u8], j: u32) -> Result<(usize, usize), Refusal>
    ensures { SpanRead s.now j result }
{
    check(s)?;
    let at = j as usize;
    let begin = begin_of(s, at);
    let end = begin_of(s, at + 1);
    Ok((begin, end))
}
