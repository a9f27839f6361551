// The prices of two programs' texts, statement by statement, and their totals.
#![tactic(auto)]

ghost use Rattle.std.specs.Prelude.{◌≡◌, List, ◌<◌, ◌^◌};
ghost use Rattle.language.specs.declared.Statement.{Statement};
ghost use Rattle.program.specs.Program.{Taken};
ghost use Rattle.program.specs.Reading.{statements, Held};
ghost use Rattle.pricing.specs.Prices.{Fair};
ghost use Rattle.price_list.specs.PriceList.{less as less_of, Lists, Both, SomeProgram};

use pricing::KINDS;
use program::{MOST, Program};

// The number of statements, the totals of the given and of the rewritten program, and the first less the second; the price of each statement before
// and after, with zeros behind the last.
#[derive(Clone, Copy)]
pub struct PriceList {
    pub count: u32,
    pub given: u32,
    pub rewritten: u32,
    pub saved: i32,
    pub before: [u32; MOST],
    pub after: [u32; MOST],
}

// The program of a text that is taken.
fn read_taken(text: &[u8]) -> Program
    requires { SomeProgram text.now }
    ensures { ((P : List Statement) → Taken text.now P → statements result ≡ P) × Held result }
{
    let Ok(program) = program::read(text) else {
        unreachable!()
    };
    program
}

// The first less the second.
fn less(a: u32, b: u32) -> i32
    requires { (a < 2 ^ 31) × (b < 2 ^ 31) }
    ensures { result ≡ less_of a b }
{
    let x = a as i32;
    let y = b as i32;
    x - y
}

// The prices of both programs by the table, and their totals.
pub fn list(given: &[u8], new: &[u8], table: &[u32; KINDS]) -> PriceList
    requires both { Both given.now new.now }
    requires fair { Fair table.now }
    ensures { (P Q : List Statement) → Taken given.now P → Taken new.now Q → Lists table.now P Q result }
{
    let one = read_taken(given);
    let two = read_taken(new);
    let before = pricing::prices_of(one, table);
    let after = pricing::prices_of(two, table);
    let n = one.count;
    let cost = pricing::total(&before, n);
    let rest = pricing::total(&after, n);
    PriceList {
        count: n as u32,
        given: cost,
        rewritten: rest,
        saved: less(cost, rest),
        before: before,
        after: after,
    }
}
