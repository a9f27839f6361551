// `judge` for a host: the answer goes into the places that it lends, and the number is 0 or the refusal's.
#![tactic(auto)]

ghost use Rattle.host_judge.specs.Places.{JudgeExported};

use refusals::Numbered;

pub fn export(
    program: &[u8],
    marks: &[u8],
    verdicts: &mut [u8],
    text: &mut [u8],
    count: &mut u32,
    accepted: &mut u32,
    bytes: &mut u32,
) -> u8
    ensures { JudgeExported program.now marks.now (record { verdicts = verdicts.old; new = text.old }) (record { verdicts = verdicts.new; new = text.new }) result (record { marks = count.old; accepted = accepted.old; bytes = bytes.old }) (record { marks = count.new; accepted = accepted.new; bytes = bytes.new }) }
{
    match judge::judge(program, marks, verdicts, text) {
        Err(refusal) => refusal.number(),
        Ok(judged) => {
            *count = judged.marks;
            *accepted = judged.accepted;
            *bytes = judged.bytes;
            0
        }
    }
}
