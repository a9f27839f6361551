// `join` for a host: the answer goes into the places that it lends, and the number is 0 or the refusal's.
#![tactic(auto)]

ghost use Rattle.host_join.specs.Places.{JoinExported};

use refusals::Numbered;

pub fn export(
    road: &[u8],
    creeper: &[u8],
    text: &mut [u8],
    statements: &mut u32,
    bytes: &mut u32,
) -> u8
    ensures { JoinExported road.now creeper.now text.old text.new result (record { statements = statements.old; bytes = bytes.old }) (record { statements = statements.new; bytes = bytes.new }) }
{
    let joined = match join::join(road, creeper, text) {
        Ok(joined) => joined,
        Err(refusal) => {
            return refusal.number();
        }
    };
    *statements = joined.statements;
    *bytes = joined.bytes;
    0
}
