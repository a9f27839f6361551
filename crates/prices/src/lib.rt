// A buyer's table of prices, read from any bytes with refusals 19 and 20.
#![tactic(auto)]

ghost use Rattle.std.specs.Prelude.{◌≡◌, ◌≤◌, length, drop, set};
ghost use Rattle.tokens.specs.Parsing.{parsed, parsed_end};
ghost use Rattle.prices.specs.Prices.{number, PricesAnswers, PriceLineRead};
ghost use Rattle.prices.specs.Parsing.{parse_price};

use pricing::{KINDS, MOST_PRICE};
use refusals::Numbered;

// The refusals of a text: some line is wrong, or there are other than eleven.
#[derive(Clone, Copy)]
pub enum Refusal {
    WrongLine,
    LineCount,
}

impl Numbered for Refusal {
    ghost number = { number };

    fn number(self) -> u8 {
        match self {
            Refusal::WrongLine => 19,
            Refusal::LineCount => 20,
        }
    }
}

// A price with its byte 10.
#[tactic(auto, using(std::proofs::lemmas::Grind::common_steps), unfolding(crate::specs::Parsing::parse_price))]
fn price(s: &[u8], at: usize) -> Option<(u32, usize)>
    ensures result_value { parsed s.now result ≡ parse_price (drop at s.now) }
    ensures result_in_bounds { parsed_end result ≤ length s.now }
{
    let (n, end) = tokens::number(s, at)?;
    if n < 1 {
        return None;
    }
    if MOST_PRICE < n {
        return None;
    }
    let next = tokens::word(s, end, b"\n")?;
    Some((n, next))
}

// The line of a price at the position.
fn line(s: &[u8], at: usize) -> Option<(u32, usize)>
    ensures { PriceLineRead s.now at result }
{
    price(s, at)
}

// Stores price k of a table, where there is such a price.
fn store(table: &mut [u32], k: usize, n: u32)
    ensures { table.new ≡ set table.old k n }
{
    if k < table.len() {
        table[k] = n;
    }
}

// The table that the text spells, once all of it has been read.
pub fn read_prices(text: &[u8]) -> Result<[u32; KINDS], Refusal>
    ensures { PricesAnswers text.now result }
{
    let mut table = [0; KINDS];
    let mut at: usize = 0;
    let mut k: usize = 0;
    // A `while`: each line tells where the next one begins, so no slice or range has the lines that a `for` would go over.
    while at < text.len() {
        let Some((n, next)) = line(text, at) else {
            return Err(Refusal::WrongLine);
        };
        store(&mut table, k, n);
        k += 1;
        at = next;
    }
    if k != KINDS {
        return Err(Refusal::LineCount);
    }
    Ok(table)
}
