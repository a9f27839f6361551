// The usual slips in a line that is refused: found by its bytes alone, and told in words.
#![tactic(auto)]

pub mod words;

ghost use Rattle.std.specs.Prelude.{◌≡◌, true, length, drop, ◌≤◌, ◌+◌, ◌-◌, ◌*◌, min};
ghost use Rattle.base.specs.Bytes.{byte};
ghost use Rattle.slips.specs.Slips.{most_number, is_digit, shows as showsOf, some as someOf, marked as markedOf, value_behind, largest_behind, outside as outsideOf, spelled_slip, named as named_of, first_outside, line_slip, from_line, up_to_end, count_behind, line_text, program_slip, list_slip};

use language::{LARGEST, VARIABLES};

// A number beyond is told as this one or more.
pub const MOST_NUMBER: u32 = 4294967295;

#[derive(Clone, Copy)]
pub enum Slip {
    Nothing,
    ByteOrderMark,
    CarriageReturn,
    Tab,
    LineEnd,
    Space,
    Brackets,
    Early,
    Variable(u32),
    Negative(u32),
    Number(u32),
    Target(u32, u32),
}

// What a byte and the one before it may show.
#[derive(Clone, Copy)]
pub enum Sign {
    Return,
    Tab,
    Space,
    Bracket,
}

// Which numbers are looked for: those that are spelled nowhere, or the targets outside a program of so many lines.
#[derive(Clone, Copy)]
pub enum Range {
    Spelled,
    Targets(u32),
}

pub fn is_digit(c: u8) -> bool
    ensures { result ≡ is_digit c }
{
    (b'0' <= c) & (c <= b'9')
}

// Whether the byte c behind p shows it.
pub fn shows(sign: Sign, p: u8, c: u8) -> bool
    ensures { result ≡ showsOf sign p c }
{
    match sign {
        Sign::Return => c == 13,
        Sign::Tab => c == 9,
        Sign::Space => ((p == b' ') & ((c == b' ') | (c == 10))) | ((p == 10) & (c == b' ')),
        Sign::Bracket => (c == b'(') & (p != b'k'),
    }
}

// Whether some byte of the line shows it.
fn some(text: &[u8], sign: Sign) -> bool
    ensures { result ≡ someOf sign 10 text.now }
{
    let mut p: u8 = 10;
    let mut at: usize = 0;
    while at < text.len() {
        let c = text[at];
        if shows(sign, p, c) {
            return true;
        }
        p = c;
        at += 1;
    }
    shows(sign, p, 10)
}

// Whether the text begins with a byte order mark.
pub fn marked(text: &[u8]) -> bool
    ensures { result ≡ markedOf text.now }
{
    if text.len() < 3 {
        return false;
    }
    (text[0] == 239) & ((text[1] == 187) & (text[2] == 191))
}

// The number v with the digit c behind it.
fn next(v: u64, c: u8) -> u64
    requires c_value { is_digit c ≡ true }
    requires v_le_most_number { v ≤ most_number }
    ensures { result ≡ min (v * 10 + (c - byte "0")) most_number }
{
    let n = v * 10 + ((c - b'0') as u64);
    if (MOST_NUMBER as u64) < n {
        MOST_NUMBER as u64
    } else {
        n
    }
}

// The value of the digits from the position on.
fn value_at(text: &[u8], from: usize) -> u32
    requires { from ≤ length text.now }
    ensures { result ≡ value_behind 0 (drop from text.now) }
{
    let mut v: u64 = 0;
    let mut at = from;
    while at < text.len() {
        let c = text[at];
        if !is_digit(c) {
            return v as u32;
        }
        v = next(v, c);
        at += 1;
    }
    v as u32
}

// The largest value of a number behind the byte p.
fn largest_behind(p: u8) -> u32
    ensures { result ≡ largest_behind p }
{
    match p {
        b'i' => VARIABLES - 1,
        b'-' => 2147483648,
        _ => LARGEST as u32,
    }
}

fn outside(range: Range, p: u8, v: u32) -> bool
    ensures { result ≡ outsideOf range p v }
{
    match range {
        Range::Spelled => largest_behind(p) < v,
        Range::Targets(n) => (p != b'i') & ((v < 2) | (n < v)),
    }
}

fn spelled_slip(p: u8, v: u32) -> Slip
    ensures { result ≡ spelled_slip p v }
{
    match p {
        b'i' => Slip::Variable(v),
        b'-' => Slip::Negative(v),
        _ => Slip::Number(v),
    }
}

fn named(range: Range, p: u8, v: u32) -> Slip
    ensures { result ≡ named_of range p v }
{
    match range {
        Range::Spelled => spelled_slip(p, v),
        Range::Targets(n) => Slip::Target(v, n),
    }
}

// The first number outside the range that begins in the first `within` bytes.
pub fn first_outside(text: &[u8], within: usize, range: Range) -> Slip
    requires { within ≤ length text.now }
    ensures { result ≡ first_outside range 10 within text.now }
{
    let mut p: u8 = 10;
    let mut at: usize = 0;
    while at < within {
        let c = text[at];
        if is_digit(c) & !is_digit(p) {
            let v = value_at(text, at);
            if outside(range, p, v) {
                return named(range, p, v);
            }
            p = c;
            at += 1;
        } else {
            p = c;
            at += 1;
        }
    }
    Slip::Nothing
}

// The slip in a line, without its byte 10.
fn in_line(line: &[u8]) -> Slip
    ensures { result ≡ line_slip line.now }
{
    if marked(line) {
        return Slip::ByteOrderMark;
    }
    if some(line, Sign::Return) {
        return Slip::CarriageReturn;
    }
    if some(line, Sign::Tab) {
        return Slip::Tab;
    }
    if some(line, Sign::Space) {
        return Slip::Space;
    }
    if some(line, Sign::Bracket) {
        return Slip::Brackets;
    }
    first_outside(line, line.len(), Range::Spelled)
}

// Where line n of the text begins, counted from 1.
fn begin_of(text: &[u8], n: u32) -> usize
    ensures text_value { drop result text.now ≡ from_line n text.now }
    ensures upper_bound { result ≤ length text.now }
{
    let mut left = n;
    let mut at: usize = 0;
    while at < text.len() {
        if left <= 1 {
            return at;
        }
        if text[at] == 10 {
            left -= 1;
            at += 1;
        } else {
            at += 1;
        }
    }
    at
}

// Where the line that begins at the position ends.
fn end_of(text: &[u8], from: usize) -> usize
    requires { from ≤ length text.now }
    ensures { result ≡ from + length (up_to_end (drop from text.now)) }
{
    let mut at = from;
    while at < text.len() {
        if text[at] == 10 {
            return at;
        }
        at += 1;
    }
    at
}

fn count_lines(text: &[u8]) -> u32
    ensures { result ≡ count_behind 0 text.now }
{
    let mut n: u32 = 0;
    let mut at: usize = 0;
    while at < text.len() {
        if (text[at] == 10) & (n < MOST_NUMBER) {
            n += 1;
            at += 1;
        } else {
            at += 1;
        }
    }
    n
}

// Line n of the text, counted from 1.
fn line_of(text: &[u8], n: u32) -> &[u8]
    ensures { result.now ≡ line_text n text.now }
{
    let from = begin_of(text, n);
    let to = end_of(text, from);
    &text[from..to]
}

// The slip on line n of the text.
pub fn on_line(text: &[u8], n: u32) -> Slip
    ensures { result ≡ line_slip (line_text n text.now) }
{
    in_line(line_of(text, n))
}

// The slip on the line of the program that its refusal n is about.
pub fn in_program(text: &[u8], n: u8, line: u32) -> Slip
    ensures { result ≡ program_slip text.now n line }
{
    match n {
        2 => on_line(text, line),
        5 => {
            let l = line_of(text, line);
            first_outside(l, l.len(), Range::Targets(count_lines(text)))
        }
        _ => Slip::Nothing,
    }
}

// The slip on the line of the program, or of the list of marks, that the refusal n of both is about.
pub fn in_lists(program: &[u8], marks: &[u8], n: u8, line: u32) -> Slip
    ensures { result ≡ list_slip program.now marks.now n line }
{
    match n {
        9 => on_line(marks, line),
        _ => in_program(program, n, line),
    }
}
