// A road and a creeper program joined into one: the road's `write X` and the creeper's `read Y` become `Y := X`.
#![tactic(auto)]

ghost use Rattle.std.specs.Prelude.{◌≡◌, ◌≤◌, ◌+◌, length};
ghost use Rattle.program.specs.Program.{text, most, Targets, WellFormed};
ghost use Rattle.program.specs.Reading.{statements, Held};
ghost use Rattle.statement_writer.specs.Writing.{Put};
ghost use Rattle.joining.specs.Joining.{moved as movedBy, writes as writes_of, reads as reads_of, joined};

use language::{Expression, Operand, Statement};
use program::Program;

// The variable of a `write`.
fn writes(s: Statement) -> u8
    ensures { result ≡ writes_of s }
{
    match s {
        Statement::Read(_) => 0,
        Statement::Write(x) => x,
        Statement::Assign(_, _) => 0,
        Statement::Branch(_, _, _) => 0,
        Statement::Skip => 0,
    }
}

// The variable of a `read`.
fn reads(s: Statement) -> u8
    ensures { result ≡ reads_of s }
{
    match s {
        Statement::Read(x) => x,
        Statement::Write(_) => 0,
        Statement::Assign(_, _) => 0,
        Statement::Branch(_, _, _) => 0,
        Statement::Skip => 0,
    }
}

// The statement with its targets d further on.
fn moved(s: Statement, d: u32) -> Statement
    requires { Targets most s × (d ≤ most) }
    ensures { result ≡ movedBy d s }
{
    match s {
        Statement::Read(x) => Statement::Read(x),
        Statement::Write(x) => Statement::Write(x),
        Statement::Assign(x, e) => Statement::Assign(x, e),
        Statement::Branch(x, n, m) => {
            let a = d + n;
            let b = d + m;
            Statement::Branch(x, a, b)
        }
        Statement::Skip => Statement::Skip,
    }
}

// Puts the joined program's text at the front of the lent bytes, and answers its length: the lines of the road but its last, the seam, and those
// of the creeper but its first, moved. No value of the joined program is made, which would be copied.
pub fn write(road: Program, creeper: Program, out: &mut [u8]) -> usize
    requires held { Held road × WellFormed (statements road) }
    requires held_2 { Held creeper × WellFormed (statements creeper) }
    requires count_bound { road.count + creeper.count ≤ most + 1 }
    requires creeper_in_bounds { length (text (joined (statements road) (statements creeper))) ≤ length out.old }
    ensures { Put out.old 0 (text (joined (statements road) (statements creeper))) out.new result }
{
    let count = road.count;
    let size = creeper.count;
    let last = count - 1;
    let mut at: usize = 0;
    for s in 0..last {
        let e = road.entries[s];
        let i = encoding::statement_of(e);
        at = statement_writer::line(out, at, i);
    }
    let write = road.entries[last];
    let read = creeper.entries[0];
    let written = encoding::statement_of(write);
    let begun = encoding::statement_of(read);
    let x = writes(written);
    let y = reads(begun);
    let seam = Statement::Assign(y, Expression::Single(Operand::Variable(x)));
    at = statement_writer::line(out, at, seam);
    let d = last as u32;
    for k in 1..size {
        let e = creeper.entries[k];
        let i = encoding::statement_of(e);
        let j = moved(i, d);
        at = statement_writer::line(out, at, j);
    }
    at
}
