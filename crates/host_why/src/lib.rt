// `why` for a host: the answer goes into the places that it lends, and the number is 0 or the refusal's.
#![tactic(auto)]

ghost use Rattle.host_why.specs.Places.{WhyExported};

use refusals::Numbered;

pub fn export(
    program: &[u8],
    marks: &[u8],
    line: u32,
    path: &mut [u32],
    verdict: &mut u32,
    length: &mut u32,
    culprit: &mut u32,
) -> u8
    ensures { WhyExported program.now marks.now line path.old path.new result (record { verdict = verdict.old; length = length.old; culprit = culprit.old }) (record { verdict = verdict.new; length = length.new; culprit = culprit.new }) }
{
    match why::why(program, marks, line, path) {
        Err(refusal) => refusal.number(),
        Ok(because) => {
            *verdict = u32::from(because.verdict);
            *length = because.length;
            *culprit = because.culprit;
            0
        }
    }
}
