// The slip at the byte where the reading of a condition stops.
#![tactic(auto)]

ghost use Rattle.std.specs.Prelude.{◌≡◌, ◌∷◌, length, get_or, ◌≤◌};
ghost use Rattle.base.specs.Decides.{Decides};
ghost use Rattle.condition.specs.Texts.{most_bytes};
ghost use Rattle.condition_slip.specs.ConditionSlip.{byte_slip, place_slip, Closes, Shows};

use condition::MOST_BYTES;
use slips::{Range, Sign, Slip};

// Whether the byte at the place is a `)` whose bracket holds a condition already.
fn closes(text: &[u8], end: usize) -> bool
    requires { length text.now ≤ most_bytes }
    ensures { Decides result (Closes text.now end) }
{
    if text.len() <= end {
        return false;
    }
    if text[end] != b')' {
        return false;
    }
    let mut k: usize = 0;
    while k < end {
        if text[k] == b'(' {
            let byte = condition_blame::byte_of(&text[k + 1..end]);
            if byte == 0 {
                return true;
            }
            k += 1;
        } else {
            k += 1;
        }
    }
    false
}

// Byte k of the text, counted from 1; a byte 10 stands before and behind it.
fn byte_at(text: &[u8], k: usize) -> u8
    ensures { result ≡ get_or (10 ∷ text.now) k 10 }
{
    if k == 0 {
        return 10;
    }
    if text.len() < k {
        return 10;
    }
    text[k - 1]
}

// What the byte c shows between p and n.
fn byte_slip(p: u8, c: u8, n: u8) -> Slip
    ensures { result ≡ byte_slip p c n }
{
    match c {
        13 => Slip::CarriageReturn,
        9 => Slip::Tab,
        10 => Slip::LineEnd,
        _ => {
            if slips::shows(Sign::Space, p, c) | slips::shows(Sign::Space, c, n) {
                Slip::Space
            } else {
                Slip::Nothing
            }
        }
    }
}

// What the byte at the place shows, with the number that it is in.
fn in_place(text: &[u8], k: usize) -> Slip
    ensures { result ≡ place_slip text.now k }
{
    if text.len() <= k {
        return Slip::Early;
    }
    let c = text[k];
    if slips::is_digit(c) {
        return slips::first_outside(text, k + 1, Range::Spelled);
    }
    byte_slip(byte_at(text, k), c, byte_at(text, k + 2))
}

// The slip at byte n of the condition's text, counted from 1; none at 0.
pub fn at(text: &[u8], n: u32) -> Slip
    ensures { Shows text.now n result }
{
    if MOST_BYTES < text.len() {
        return Slip::Nothing;
    }
    if n == 0 {
        return Slip::Nothing;
    }
    let k = n as usize - 1;
    if closes(text, k) {
        return Slip::Brackets;
    }
    if (n == 1) & slips::marked(text) {
        return Slip::ByteOrderMark;
    }
    in_place(text, k)
}
