// `force` for a host: the answer told in the places that the host lends.
#![tactic(auto)]

ghost use Rattle.host_force.specs.Exports.{ForceExported};

use program::MOST;
use refusals::Numbered;

// Returns 0, or the number of the refusal. The numbers and the arms of the statements are set, and what stands after them is kept.
pub fn force(
    program: &[u8],
    driver: &[u8],
    condition: &[u8],
    table: &mut [u64],
    parts: &mut u32,
    satisfied: &mut u32,
    first: &mut u32,
    number: &mut [u32; MOST],
    arm: &mut [u8; MOST],
) -> u8
    ensures { ForceExported program.now driver.now condition.now table.old table.new result (record { numbers = number.old; arms = arm.old }) (record { numbers = number.new; arms = arm.new }) (record { parts = parts.old; satisfied = satisfied.old; first = first.old }) (record { parts = parts.new; satisfied = satisfied.new; first = first.new }) }
{
    match force::fill(program, driver, condition, table, number, arm) {
        Err(refusal) => refusal.number(),
        Ok(filled) => {
            *parts = filled.parts;
            *satisfied = filled.satisfied;
            *first = filled.first;
            0
        }
    }
}
