// `tabulate` for a host: the answer goes into the places that it lends, and the number is 0 or the refusal's.
#![tactic(auto)]

ghost use Rattle.host_tabulate.specs.Places.{TabulateExported};

use refusals::Numbered;

pub fn export(
    program: &[u8],
    condition: &[u8],
    table: &mut [u64],
    parts: &mut u32,
    satisfied: &mut u32,
    first: &mut u32,
) -> u8
    ensures { TabulateExported program.now condition.now table.old table.new result (record { parts = parts.old; satisfied = satisfied.old; first = first.old }) (record { parts = parts.new; satisfied = satisfied.new; first = first.new }) }
{
    match tabulate::tabulate(program, condition, table) {
        Err(refusal) => refusal.number(),
        Ok(filled) => {
            *parts = filled.parts;
            *satisfied = filled.satisfied;
            *first = filled.first;
            0
        }
    }
}
