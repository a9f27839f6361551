// A call: the list of a program's readers and writers, brought up to date after a round of marks. It takes any bytes, and has no `requires`.
#![tactic(auto)]

ghost use Rattle.std.specs.Prelude.{List};
ghost use Rattle.program.specs.Program.{WellFormed};
ghost use Rattle.program.specs.Reading.{statements, Held};
ghost use Rattle.marks.specs.Reading.{Taken};
ghost use Rattle.marks.specs.declared.Mark.{Mark as MarkOf};
ghost use Rattle.verdicts.specs.Judging.{SomeTaken};
ghost use Rattle.relist.specs.Relist.{RelistAnswers};
ghost use Rattle.relist.specs.Rounds.{Round};

use calls::Refusal;
use listing::{LIST_WORDS, Ones};
use program::Program;
use verdicts::Rewriting;

// The program with the accepted marks of the list made, judged as `judge` does, and how many those are.
fn rewritten(p: Program, marks: &[u8]) -> Rewriting
    requires held { Held p }
    requires well_formed { WellFormed (statements p) }
    requires some_taken { SomeTaken marks.now }
    ensures { (ms : List MarkOf) → Taken marks.now ms → Round p ms result }
{
    let mut rows = atoms::blank();
    let mut codes = atoms::blank_codes();
    atoms::find(p, &mut rows, &mut codes);
    let mut flow = flow::blank();
    flow::of(p, &mut flow);
    let mut verdicts = judge::verdict_buffer();
    widening::judge(marks, p, &mut rows, &codes, &flow, &mut verdicts);
    verdicts::rewrite(marks, p, &verdicts)
}

// Judges each mark of the list on the program, and writes the bits of the statements that the accepted ones change: none where none is accepted.
pub fn relist(
    program: &[u8],
    marks: &[u8],
    list: &mut [u64],
) -> Result<Ones, Refusal<marks::Refusal>>
    ensures { RelistAnswers program.now marks.now list.old list.new result }
{
    if list.len() < LIST_WORDS {
        return Err(Refusal::Room);
    }
    let p = program::read(program)?;
    match marks::read::check(marks) {
        Err(refusal) => Err(Refusal::Text(refusal)),
        Ok(_) => {
            let made = rewritten(p, marks);
            if made.accepted == 0 {
                return Ok(listing::listed(&*list));
            }
            let q = made.program;
            listing::update(p, q, list);
            Ok(listing::listed(&*list))
        }
    }
}
