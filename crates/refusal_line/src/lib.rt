// Which line a refusal of a program and a list of marks is about.
#![tactic(auto)]

ghost use Rattle.refusal_line.specs.Blame.{NumberTold};

// The line that the refusal with number n is about, of the list of marks where it is one of its spelling, else of the program; 0 where it is
// about none.
pub fn line_of_number(program: &[u8], marks: &[u8], n: u8) -> u32
    ensures { NumberTold program.now marks.now n result }
{
    match n {
        9 => mark_blame::line_of(marks),
        _ => blame::line_of_number(program, n),
    }
}
