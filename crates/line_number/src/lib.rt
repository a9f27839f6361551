// The numbers of a text's lines, counted from 1, and the first line that isn't spelled.
#![tactic(auto)]

ghost use Rattle.std.specs.Prelude.{◌≡◌};
ghost use Rattle.line_number.specs.First.{line_at};

// Lines beyond are all given this number.
const MOST_LINE: usize = 4294967295;

// The number of the line at place s.
pub fn line_at(s: usize) -> u32
    ensures { result ≡ line_at s }
{
    if s < MOST_LINE {
        (s + 1) as u32
    } else {
        MOST_LINE as u32
    }
}
