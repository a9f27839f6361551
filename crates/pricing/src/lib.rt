// What statements cost, by a table of eleven prices; the prices and the total of a program.
#![tactic(auto)]

ghost use Rattle.std.specs.Prelude.{◌≡◌, ◌≤◌, ◌<◌, length, take, replicate};
ghost use Rattle.program.specs.Program.{most};
ghost use Rattle.program.specs.Reading.{statements, Held};
ghost use Rattle.pricing.specs.Prices.{kinds, ours as oursAre, operator_kind, expression_kind, kind_of, price, column, sum, Fair, counted as countedIs, in_force};

use language::{Expression, Operator, Statement};
use program::{MOST, Program};

// The kinds of statements that have a price of their own: `read`, `write`, `skip`, `if`, a copy, and the six operators.
pub const KINDS: usize = 11;

// The prices that hold where nobody brings others.
pub fn ours() -> [u32; KINDS]
    ensures { result ≡ oursAre }
{
    [4, 4, 1, 3, 2, 3, 3, 9, 3, 3, 24]
}

// No price is above this one, and none below 1.
pub const MOST_PRICE: u32 = 65535;

// What a price of a caller's table counts: itself where it lies in the range, else ours.
fn counted(price: u32, our: u32) -> u32
    ensures { result ≡ countedIs price our }
{
    match price {
        1..=MOST_PRICE => price,
        _ => our,
    }
}

// The prices in force where a caller hands the table.
pub fn in_force(table: [u32; KINDS]) -> [u32; KINDS]
    ensures { result ≡ in_force table }
{
    let mut prices = ours();
    for k in 0..KINDS {
        prices[k] = counted(table[k], prices[k]);
    }
    prices
}

fn operator_kind(o: Operator) -> usize
    ensures { (result ≡ operator_kind o) × (result < kinds) }
{
    match o {
        Operator::Add => 5,
        Operator::Subtract => 6,
        Operator::Multiply => 7,
        Operator::Less => 8,
        Operator::Equal => 9,
        Operator::Divide => 10,
    }
}

fn expression_kind(e: Expression) -> usize
    ensures { (result ≡ expression_kind e) × (result < kinds) }
{
    match e {
        Expression::Single(_) => 4,
        Expression::Binary(_, o, _) => operator_kind(o),
    }
}

// Which of the eleven prices a statement has.
fn kind_of(s: Statement) -> usize
    ensures { (result ≡ kind_of s) × (result < kinds) }
{
    match s {
        Statement::Read(_) => 0,
        Statement::Write(_) => 1,
        Statement::Assign(_, e) => expression_kind(e),
        Statement::Branch(_, _, _) => 3,
        Statement::Skip => 2,
    }
}

// The price of a statement.
pub fn price_of(s: Statement, table: &[u32; KINDS]) -> u32
    ensures { result ≡ price table.now s }
{
    table[kind_of(s)]
}

// The price of each statement, found once.
pub fn prices_of(p: Program, table: &[u32; KINDS]) -> [u32; MOST]
    requires { Held p }
    ensures { result ≡ column table.now (statements p) }
{
    let mut prices = [0; MOST];
    for s in 0..p.count {
        prices[s] = price_of(encoding::statement_of(p.entries[s]), table);
    }
    prices
}

// The sum of the first n prices.
pub fn total(prices: &[u32; MOST], n: usize) -> u32
    requires { Fair prices.now × (n ≤ most) × (length prices.now ≡ most) }
    ensures { result ≡ sum (take n prices.now) }
{
    let mut sum: u32 = 0;
    for s in 0..n {
        sum += prices[s];
    }
    sum
}
