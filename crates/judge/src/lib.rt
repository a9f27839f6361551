// A call: judges a list of marks on a program, and makes the accepted ones. It takes any bytes, and has no `requires`.
#![tactic(auto)]

ghost use Rattle.std.specs.Prelude.{◌≡◌, length};
ghost use Rattle.judge.specs.Judge.{verdict_bytes, text_bytes, JudgeAnswers};

use calls::Refusal;
use program::TEXT_ROOM;

// The verdict bytes and the new text have at least this many bytes.
pub const VERDICT_BYTES: usize = marks::MOST;

pub const TEXT_BYTES: usize = TEXT_ROOM;

// The marks, the accepted ones, and the bytes of new text.
#[derive(Clone, Copy)]
pub struct Judged {
    pub marks: u32,
    pub accepted: u32,
    pub bytes: u32,
}

// Verdict bytes and a new text to lend.
pub fn verdict_buffer() -> [u8; VERDICT_BYTES]
    ensures { length result ≡ verdict_bytes }
{
    [0; VERDICT_BYTES]
}

pub fn text_buffer() -> [u8; TEXT_BYTES]
    ensures { length result ≡ text_bytes }
{
    [0; TEXT_BYTES]
}

// Judges each mark of the list on the program, and puts the program with the accepted ones made at the front of the new text.
pub fn judge(
    program: &[u8],
    marks: &[u8],
    verdicts: &mut [u8],
    text: &mut [u8],
) -> Result<Judged, Refusal<marks::Refusal>>
    ensures { JudgeAnswers program.now marks.now (record { verdicts = verdicts.old; new = text.old }) (record { verdicts = verdicts.new; new = text.new }) result }
{
    if verdicts.len() < VERDICT_BYTES {
        return Err(Refusal::Room);
    }
    if text.len() < TEXT_BYTES {
        return Err(Refusal::Room);
    }
    let p = program::read(program)?;
    let count = match marks::read::check(marks) {
        Ok(count) => count,
        Err(refusal) => return Err(Refusal::Text(refusal)),
    };
    // Nothing is to be judged, so nothing is found out about the program.
    if count == 0 {
        let length = program::write(p, text);
        return Ok(Judged {
            marks: 0,
            accepted: 0,
            bytes: length as u32,
        });
    }
    let mut rows = atoms::blank();
    let mut codes = atoms::blank_codes();
    atoms::find(p, &mut rows, &mut codes);
    let mut flow = flow::blank();
    flow::of(p, &mut flow);
    widening::judge(marks, p, &mut rows, &codes, &flow, verdicts);
    let rewriting = verdicts::rewrite(marks, p, &*verdicts);
    let bytes = program::write(rewriting.program, text);
    Ok(Judged {
        marks: count,
        accepted: rewriting.accepted,
        bytes: bytes as u32,
    })
}
