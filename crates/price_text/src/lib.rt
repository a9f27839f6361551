// What the check program prints of prices: a line for each statement, and the totals.
#![tactic(auto)]

ghost use Rattle.std.specs.Prelude.{◌≤◌, ◌+◌, ◌*◌, ◌++◌, length};
ghost use Rattle.program.specs.Program.{most};
ghost use Rattle.pricing.specs.Prices.{Fair};
ghost use Rattle.statement_writer.specs.Writing.{Put};
ghost use Rattle.price_text.specs.PriceText.{price_line, price_lines, total_lines, price_room, totals_room, price_text_room};

use language::{CONSTANT_ROOM, NUMBER_DIGITS};
use price_list::PriceList;
use program::MOST;

// The digits of a statement's number, and of a price.
const PLACE_DIGITS: usize = 4;

const PRICE_DIGITS: usize = 5;
// A line of prices has room in this many bytes, the lines of the totals in this many, and all of it in this many.
const PRICE_ROOM: usize = PLACE_DIGITS + 1 + PRICE_DIGITS + 1 + PRICE_DIGITS + 1;

const TOTALS_ROOM: usize = NUMBER_DIGITS + 1 + NUMBER_DIGITS + 1 + CONSTANT_ROOM + 1;

pub const PRICE_TEXT_ROOM: usize = MOST * PRICE_ROOM + TOTALS_ROOM;

// `4 3 3`
fn line(out: &mut [u8], at: usize, n: u32, b: u32, a: u32) -> usize
    requires { at + length (price_line n b a) ≤ length out.old }
    ensures { Put out.old at (price_line n b a) out.new result }
{
    let k1 = statement_writer::number(out, at, n);
    let k2 = statement_writer::byte(out, k1, b' ');
    let k3 = statement_writer::number(out, k2, b);
    let k4 = statement_writer::byte(out, k3, b' ');
    let k5 = statement_writer::number(out, k4, a);
    statement_writer::byte(out, k5, 10)
}

// A line for each of the first n statements.
fn lines(out: &mut [u8], at: usize, n: u32, before: &[u32; MOST], after: &[u32; MOST]) -> usize
    requires { (n ≤ most) × (at + n * price_room ≤ length out.old) × Fair before.now × Fair after.now }
    ensures { Put out.old at (price_lines n before.now after.now) out.new result × (result ≤ at + n * price_room) }
{
    let mut to = at;
    for s in 0..n {
        let i = s as usize;
        to = line(out, to, s + 1, before[i], after[i]);
    }
    to
}

// `24`, `24` and `0`
fn totals(out: &mut [u8], at: usize, g: u32, r: u32, s: i32) -> usize
    requires { at + totals_room ≤ length out.old }
    ensures { Put out.old at (total_lines g r s) out.new result × (result ≤ at + totals_room) }
{
    let k1 = statement_writer::number(out, at, g);
    let k2 = statement_writer::byte(out, k1, 10);
    let k3 = statement_writer::number(out, k2, r);
    let k4 = statement_writer::byte(out, k3, 10);
    let k5 = desk::columns::signed(out, k4, s);
    statement_writer::byte(out, k5, 10)
}

// The lines of a list of prices, and its totals.
pub fn write(out: &mut [u8], at: usize, list: PriceList) -> usize
    requires { (list.count ≤ most) × (at + price_text_room ≤ length out.old) × Fair list.before × Fair list.after }
    ensures { Put out.old at (price_lines list.count list.before list.after ++ total_lines list.given list.rewritten list.saved) out.new result × (result ≤ at + price_text_room) }
{
    let before = list.before;
    let after = list.after;
    let k = lines(out, at, list.count, &before, &after);
    totals(out, k, list.given, list.rewritten, list.saved)
}
