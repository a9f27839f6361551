// A call: why a mark of a list is refused. It takes any bytes, and has no `requires`.
#![tactic(auto)]

ghost use Rattle.std.specs.Prelude.{◌≡◌, List, ℕ, ◌≤◌, ◌<◌, length};
ghost use Rattle.program.specs.Program.{Taken};
ghost use Rattle.program.specs.Reading.{statements, Held};
ghost use Rattle.refused_paths.specs.Searching.{variable_of};
ghost use Rattle.explain.specs.Explain.{path_words};
ghost use Rattle.why.specs.Why.{WhyTold, WhyAnswers};
ghost use Rattle.why.specs.Lines.{MarkOfLine};

use calls::Refusal;
use condition::Atom;
use explain::PATH_WORDS;
use marks::Mark;
use program::Program;
use rewriting::Verdict;

// The line's verdict byte; where that is 14, how many words the path has, and what its last statement does: 1 uses the variable, 2 so by an
// accepted `cse` alone, 3 defines it, 4 defines a variable of the expression, 5 is statement 1. Both are 0 with any other.
#[derive(Clone, Copy)]
pub struct Because {
    pub verdict: u8,
    pub length: u32,
    pub culprit: u32,
}

// The variable that the mark drops, replaces or uses again.
fn variable_of(m: Mark) -> u8
    ensures { result ≡ variable_of m }
{
    match m {
        Mark::Rm(_, x, _) | Mark::Rpl(_, x, _) | Mark::Cse(_, x, _) => x,
    }
}

fn without_path(verdict: u8) -> Because
    ensures { (result.verdict ≡ verdict) × (result.length ≡ 0) × (result.culprit ≡ 0) }
{
    Because {
        verdict,
        length: 0,
        culprit: 0,
    }
}

// The answer on the line with the mark m, of a program and a list that were read.
fn at_line(p: Program, marks: &[u8], m: Mark, line: usize, path: &mut [u32]) -> Because
    requires { Held p × ((t : List ℕ) × Taken t (statements p)) × MarkOfLine marks.now line m × (path_words ≤ length path.old) }
    ensures { (t : List ℕ) → Taken t (statements p) → WhyTold t marks.now line path.old path.new result.verdict result.length result.culprit }
{
    let n = p.count;
    let mut rows = atoms::blank();
    let mut codes = atoms::blank_codes();
    atoms::find(p, &mut rows, &mut codes);
    let mut flow = flow::blank();
    flow::of(p, &mut flow);
    let mut own = atoms::blank_row();
    atoms::row(Atom::Use(variable_of(m)), n, &rows, &codes, &mut own);
    let mut verdicts = judge::verdict_buffer();
    widening::judge(marks, p, &mut rows, &codes, &flow, &mut verdicts);
    let verdict = verdicts[line];
    if verdict != u8::from(Verdict::Unmet) {
        return without_path(verdict);
    }
    let s = verdicts::place_of(m);
    let shown = refused_paths::path_of(m, n, &rows, &codes, &flow, &own, s, path);
    Because {
        verdict,
        length: shown.length as u32,
        culprit: shown.culprit,
    }
}

// Why line `line` of the list, counted from 0, has its verdict: with 14, a path from its statement on that shows its condition to be false.
pub fn why(
    program: &[u8],
    marks: &[u8],
    line: u32,
    path: &mut [u32],
) -> Result<Because, Refusal<marks::Refusal>>
    ensures { WhyAnswers program.now marks.now line path.old path.new result }
{
    if path.len() < PATH_WORDS {
        return Err(Refusal::Room);
    }
    let p = program::read(program)?;
    let place = marks::read::span(marks, line).map_err(Refusal::Text)?;
    let Some((m, _)) = marks::read::line(marks, place.0) else {
        return Ok(without_path(u8::from(Verdict::Missing)));
    };
    Ok(at_line(p, marks, m, line as usize, path))
}
