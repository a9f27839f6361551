// Tables of prices for a host, which holds the table in force: a buyer's, with 0 or the refusal's number, and ours.
#![tactic(auto)]

ghost use Rattle.std.specs.Prelude.{◌≡◌};
ghost use Rattle.pricing.specs.Prices.{ours as oursAre};
ghost use Rattle.host_prices.specs.Places.{PricesExported};

use pricing::KINDS;
use refusals::Numbered;

pub fn export(text: &[u8], prices: &mut [u32; KINDS]) -> u8
    ensures { PricesExported text.now result prices.old prices.new }
{
    match prices::read_prices(text) {
        Ok(table) => {
            *prices = table;
            0
        }
        Err(refusal) => refusal.number(),
    }
}

// The first table in force.
pub fn ours(prices: &mut [u32; KINDS])
    ensures { prices.new ≡ oursAre }
{
    *prices = pricing::ours();
}
