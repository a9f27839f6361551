// The readers of operators: each takes what stands at a position of a text, and answers the value and the position after it.
#![tactic(auto)]

ghost use Rattle.std.specs.Prelude.{◌≡◌, ◌≤◌, length, drop};
ghost use Rattle.tokens.specs.Parsing.{parsed, parsed_end, passed, passed_end, parse_word};
ghost use Rattle.condition.specs.Condition.{prefix, middle};
ghost use Rattle.condition.specs.Words.{unary_code, binary_code};
ghost use Rattle.operator_reader.specs.Parsing.{coded, quant_of, all_of, parse_letter, unaries, parse_prefix, binaries, opened, closing_of, parse_opening, parse_middle};

use atom_reader::ended;

// What opens a binary operator: `(`, `E[` or `A[`.
#[derive(Clone, Copy)]
pub enum Bracket {
    Round,
    Some,
    All,
}

// `E` or `A`. An operator with `A` has the code after the one with `E`.
#[derive(Clone, Copy)]
enum Quantifier {
    Some,
    All,
}

impl Quantifier {
    // What is added to the code of an operator with `E`.
    fn code(self) -> u8
        ensures { result ≡ all_of (quant_of self) }
    {
        self as u8
    }
}

// The letter of a unary path operator and its space.
fn unary_letter(s: &[u8], at: usize, quantifier: Quantifier) -> Option<(u8, usize)>
    ensures result_value { parsed s.now result ≡ coded unary_code (parse_letter prefix (unaries (quant_of quantifier)) (drop at s.now)) }
    ensures result_in_bounds { parsed_end result ≤ length s.now }
{
    let all = quantifier.code();
    match *s.get(at)? {
        b'X' => ended(s, at + 1, b" ", 2 + all),
        b'F' => ended(s, at + 1, b" ", 4 + all),
        b'G' => ended(s, at + 1, b" ", 6 + all),
        b'Y' => ended(s, at + 1, b" ", 8 + all),
        b'R' => ended(s, at + 1, b" ", 10 + all),
        b'M' => ended(s, at + 1, b" ", 12 + all),
        _ => None,
    }
}

// `!`, or one of `EX ` to `AM `. An operator is answered by its code, which is a byte of a condition's word.
pub fn prefix(s: &[u8], at: usize) -> Option<(u8, usize)>
    ensures result_value { parsed s.now result ≡ coded unary_code (parse_prefix (drop at s.now)) }
    ensures result_in_bounds { parsed_end result ≤ length s.now }
{
    match *s.get(at)? {
        b'!' => Some((1, at + 1)),
        b'E' => unary_letter(s, at + 1, Quantifier::Some),
        b'A' => unary_letter(s, at + 1, Quantifier::All),
        _ => None,
    }
}

// `&` or `|` and its space.
fn connective(s: &[u8], at: usize) -> Option<(u8, usize)>
    ensures result_value { parsed s.now result ≡ coded binary_code (parse_letter middle (opened Bracket.Round) (drop at s.now)) }
    ensures result_in_bounds { parsed_end result ≤ length s.now }
{
    match *s.get(at)? {
        b'&' => ended(s, at + 1, b" ", 14),
        b'|' => ended(s, at + 1, b" ", 15),
        _ => None,
    }
}

// The letter of a binary path operator and its space.
fn binary_letter(s: &[u8], at: usize, quantifier: Quantifier) -> Option<(u8, usize)>
    ensures result_value { parsed s.now result ≡ coded binary_code (parse_letter middle (binaries (quant_of quantifier)) (drop at s.now)) }
    ensures result_in_bounds { parsed_end result ≤ length s.now }
{
    let all = quantifier.code();
    match *s.get(at)? {
        b'U' => ended(s, at + 1, b" ", 16 + all),
        b'W' => ended(s, at + 1, b" ", 18 + all),
        b'S' => ended(s, at + 1, b" ", 20 + all),
        b'B' => ended(s, at + 1, b" ", 22 + all),
        _ => None,
    }
}

// `(`, `E[` or `A[`.
pub fn opening(s: &[u8], at: usize) -> Option<(Bracket, usize)>
    ensures result_value { parsed s.now result ≡ parse_opening (drop at s.now) }
    ensures result_in_bounds { parsed_end result ≤ length s.now }
{
    match *s.get(at)? {
        b'(' => Some((Bracket::Round, at + 1)),
        b'E' => ended(s, at + 1, b"[", Bracket::Some),
        b'A' => ended(s, at + 1, b"[", Bracket::All),
        _ => None,
    }
}

// What stands between the two conditions of a binary operator, as ` & ` or ` U `.
#[tactic(auto, unfolding(crate::specs::Parsing::parse_middle))]
pub fn middle(s: &[u8], at: usize, bracket: Bracket) -> Option<(u8, usize)>
    ensures result_value { parsed s.now result ≡ coded binary_code (parse_middle bracket (drop at s.now)) }
    ensures result_in_bounds { parsed_end result ≤ length s.now }
{
    let at = tokens::word(s, at, b" ")?;
    match bracket {
        Bracket::Round => connective(s, at),
        Bracket::Some => binary_letter(s, at, Quantifier::Some),
        Bracket::All => binary_letter(s, at, Quantifier::All),
    }
}

// What closes the bracket.
pub fn closing(s: &[u8], at: usize, bracket: Bracket) -> Option<usize>
    ensures result_value { passed s.now result ≡ parse_word (closing_of bracket) (drop at s.now) }
    ensures result_in_bounds { passed_end result ≤ length s.now }
{
    match bracket {
        Bracket::Round => tokens::word(s, at, b")"),
        Bracket::Some | Bracket::All => tokens::word(s, at, b"]"),
    }
}
