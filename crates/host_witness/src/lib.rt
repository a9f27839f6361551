// `witness` for a host: the answer goes into the places that it lends, and the number is 0 or the refusal's.
#![tactic(auto)]

ghost use Rattle.std.specs.Prelude.{◌≡◌};
ghost use Rattle.bits.specs.Row.{one};
ghost use Rattle.host_witness.specs.Places.{WitnessExported};

use explain::Witnessed;
use refusals::Numbered;

fn number_of(truth: bool) -> u32
    ensures { result ≡ one truth }
{
    if truth { 1 } else { 0 }
}

pub fn export(
    program: &[u8],
    condition: &[u8],
    part: u32,
    statement: u32,
    path: &mut [u32],
    length: &mut u32,
    turn: &mut u32,
    truth: &mut u32,
) -> u8
    ensures { WitnessExported program.now condition.now part statement path.old path.new result (record { length = length.old; turn = turn.old; truth = truth.old }) (record { length = length.new; turn = turn.new; truth = truth.new }) }
{
    match explain::witness(program, condition, part, statement, path) {
        Err(refusal) => refusal.number(),
        Ok(Witnessed::Path(m, t)) => {
            *length = m;
            *turn = t;
            0
        }
        Ok(Witnessed::None(b)) => {
            *length = 0;
            *turn = 0;
            *truth = number_of(b);
            0
        }
    }
}
