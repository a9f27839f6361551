// Which line of a list of marks its refusal is about.
#![tactic(auto)]

ghost use Rattle.mark_blame.specs.Blame.{LineTold};

// The number of the first line that isn't spelled as a mark; 0 where each is.
pub fn line_of(marks: &[u8]) -> u32
    ensures { LineTold marks.now result }
{
    let mut n: usize = 0;
    let mut at: usize = 0;
    // A `while`: each line tells where the next one begins, so no slice or range has the lines that a `for` would go over.
    while at < marks.len() {
        let Some((_, k)) = marks::read::line(marks, at) else {
            return line_number::line_at(n);
        };
        n += 1;
        at = k;
    }
    0
}
