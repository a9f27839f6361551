// Which line of a program's text a refusal is about.
#![tactic(auto)]

ghost use Rattle.std.specs.Prelude.{◌≡◌, List, length};
ghost use Rattle.language.specs.declared.Statement.{Statement as Meant};
ghost use Rattle.program.specs.Program.{Spells};
ghost use Rattle.base.specs.Decides.{Decides};
ghost use Rattle.blame.specs.Blame.{Rule, LineTold, NumberTold, TextBlamed};
ghost use Rattle.blame.specs.Counting.{CountTold};

use language::Statement;
use program::Refusal;

// The number of a text's lines, or that of the first that isn't spelled.
fn count_lines(s: &[u8]) -> Result<usize, u32>
    ensures { CountTold s.now result }
{
    let mut n: usize = 0;
    let mut at: usize = 0;
    // A `while`: each line tells where the next one begins, so no slice or range has the lines that a `for` would go over.
    while at < s.len() {
        let Some((_, k)) = statement_reader::line(s, at) else {
            return Err(line_number::line_at(n));
        };
        n += 1;
        at = k;
    }
    Ok(n)
}

// Whether the statement at place s of n is as the refusal asks.
fn keeps(r: Refusal, e: Statement, s: usize, n: usize) -> bool
    ensures { Decides result (Rule r n s e) }
{
    match r {
        Refusal::Misspelled => true,
        Refusal::LineCount => true,
        Refusal::Placement => program::in_place(e, s, n),
        Refusal::Target => program::is_aimed(e, n),
    }
}

// The line of the first statement of n that isn't as the refusal asks; 0 where each is.
fn first_broken(text: &[u8], r: Refusal, n: usize) -> u32
    ensures { (P : List Meant) → Spells text.now P → n ≡ length P → LineTold text.now r result }
{
    let mut s: usize = 0;
    let mut at: usize = 0;
    // A `while`: each line tells where the next one begins, so no slice or range has the lines that a `for` would go over.
    while at < text.len() {
        let Some((e, k)) = statement_reader::line(text, at) else {
            return line_number::line_at(s);
        };
        if !keeps(r, e, s, n) {
            return line_number::line_at(s);
        }
        s += 1;
        at = k;
    }
    0
}

// The number of the line that the refusal of the text is about; 0 where it is about none.
pub fn line_of(text: &[u8], r: Refusal) -> u32
    ensures { LineTold text.now r result }
{
    match count_lines(text) {
        Ok(n) => first_broken(text, r, n),
        Err(line) => line,
    }
}

// The line that the refusal with number n is about; 0 where no refusal of a program has it.
pub fn line_of_number(text: &[u8], n: u8) -> u32
    ensures { NumberTold text.now n result }
{
    match n {
        2 => line_of(text, Refusal::Misspelled),
        3 => line_of(text, Refusal::LineCount),
        4 => line_of(text, Refusal::Placement),
        5 => line_of(text, Refusal::Target),
        _ => 0,
    }
}

// A call: the line that the refusal of the program's text is about; 0 where it is about none, or the text is taken.
pub fn blame(program: &[u8]) -> u32
    ensures { TextBlamed program.now result }
{
    match program::read(program) {
        Ok(_) => 0,
        Err(refusal) => line_of(program, refusal),
    }
}
