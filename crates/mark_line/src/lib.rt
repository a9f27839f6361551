// A call: where a line of a list of marks begins and ends. It takes any bytes, and has no `requires`.
#![tactic(auto)]

ghost use Rattle.mark_line.specs.MarkLine.{MarkLineAnswers};

// Finds line j of the list, counted from 0: the positions of its first byte and of the byte after its byte 10.
pub fn mark_line(marks: &[u8], j: u32) -> Result<(usize, usize), marks::Refusal>
    ensures { MarkLineAnswers marks.now j result }
{
    marks::read::span(marks, j)
}
