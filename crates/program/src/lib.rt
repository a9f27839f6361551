// Programs: a text read whole, with refusals 2 to 5, and a program written back.
#![tactic(auto)]

ghost use Rattle.std.specs.Prelude.{◌≡◌, ◌≤◌, ◌+◌, length};
ghost use Rattle.program.specs.Program.{text, most, Inner, InPlace, IsTarget, Targets};
ghost use Rattle.base.specs.Decides.{Decides};
ghost use Rattle.program.specs.Reading.{statements, Held, LinesRead, ProgramRead, number};
ghost use Rattle.statement_writer.specs.Writing.{Put};

use encoding::Entry;
use language::Statement;
use refusals::Numbered;

// A program has 2 to 1,024 statements.
pub const FEWEST: usize = 2;

pub const MOST: usize = 1024;
// A line has room in this many bytes with its byte 10, and every program's text in this many.
const LINE_ROOM: usize = 34;

pub const TEXT_ROOM: usize = MOST * LINE_ROOM;

// The words of a set of statements: one bit for each.
pub const ROW_WORDS: usize = MOST / 64;

// The first `count` entries are the statements. They come last, so that those of two programs that lie side by side are a multiple of 16 bytes
// apart: some processors copy a whole number of pages by 8 bytes sixteen times slower.
#[derive(Clone, Copy)]
pub struct Program {
    pub count: usize,
    pub entries: [Entry; MOST],
}

// The refusals of a program's text.
#[derive(Clone, Copy)]
pub enum Refusal {
    Misspelled,
    LineCount,
    Placement,
    Target,
}

impl Numbered for Refusal {
    ghost number = { number };

    fn number(self) -> u8 {
        match self {
            Refusal::Misspelled => 2,
            Refusal::LineCount => 3,
            Refusal::Placement => 4,
            Refusal::Target => 5,
        }
    }
}

// An array to be filled.
fn blank() -> [Entry; MOST]
    ensures { length result ≡ most }
{
    [Entry {
        head: 0,
        first: 0,
        second: 0,
    }; MOST]
}

// The number of lines, unless one is misspelled. The first MOST are kept, and every line is read, also beyond those.
fn read_lines(s: &[u8], entries: &mut [Entry; MOST]) -> Option<usize>
    requires { length entries.old ≡ most }
    ensures { LinesRead s.now result entries.new }
{
    let mut count: usize = 0;
    let mut at: usize = 0;
    // A `while`: each line tells where the next one begins, so no slice or range has the lines that a `for` would go over.
    while at < s.len() {
        let (e, end) = statement_reader::statement(s, at)?;
        let next = tokens::word(s, end, b"\n")?;
        if count < MOST {
            entries[count] = encoding::entry_of(e);
        }
        count += 1;
        at = next;
    }
    Some(count)
}

// Place s is the last of n.
fn last(s: usize, n: usize) -> bool
    ensures { Decides result (s + 1 ≡ n) }
{
    if n <= s {
        return false;
    }
    s + 1 == n
}

// Place s is neither the first nor the last of n.
fn inner(s: usize, n: usize) -> bool
    ensures { Decides result (Inner n s) }
{
    if n <= s {
        return false;
    }
    if s == 0 {
        return false;
    }
    s + 1 < n
}

// Whether the statement may stand at place s of n.
pub fn in_place(e: Statement, s: usize, n: usize) -> bool
    ensures { Decides result (InPlace n s e) }
{
    match e {
        Statement::Read(_) => s == 0,
        Statement::Write(_) => last(s, n),
        Statement::Assign(_, _) => inner(s, n),
        Statement::Branch(_, _, _) => inner(s, n),
        Statement::Skip => inner(s, n),
    }
}

fn is_target(t: u32, n: usize) -> bool
    ensures { Decides result (IsTarget n t) }
{
    if t < 2 {
        return false;
    }
    t as usize <= n
}

// Whether the targets of a branch lie in a program of n statements.
pub fn is_aimed(e: Statement, n: usize) -> bool
    ensures { Decides result (Targets n e) }
{
    match e {
        Statement::Read(_) => true,
        Statement::Write(_) => true,
        Statement::Assign(_, _) => true,
        Statement::Branch(_, a, b) => {
            if !is_target(a, n) {
                return false;
            }
            is_target(b, n)
        }
        Statement::Skip => true,
    }
}

// The program whose lines the text is, or the first refusal that applies. Placements and targets are looked at here, where the entries are:
// lent to a function they would be copied.
pub fn read(s: &[u8]) -> Result<Program, Refusal>
    ensures { ProgramRead s.now result }
{
    let mut entries = blank();
    let Some(count) = read_lines(s, &mut entries) else {
        return Err(Refusal::Misspelled);
    };
    if count < FEWEST {
        return Err(Refusal::LineCount);
    }
    if MOST < count {
        return Err(Refusal::LineCount);
    }
    for i in 0..count {
        let t = encoding::statement_of(entries[i]);
        if !in_place(t, i, count) {
            return Err(Refusal::Placement);
        }
    }
    for j in 0..count {
        let t = encoding::statement_of(entries[j]);
        if !is_aimed(t, count) {
            return Err(Refusal::Target);
        }
    }
    Ok(Program { count, entries })
}

// Puts the program's text at the front of the lent bytes, and answers its length.
pub fn write(p: Program, out: &mut [u8]) -> usize
    requires held { Held p }
    requires p_in_bounds { length (text (statements p)) ≤ length out.old }
    ensures { Put out.old 0 (text (statements p)) out.new result }
{
    let mut at: usize = 0;
    for s in 0..p.count {
        let t = encoding::statement_of(p.entries[s]);
        at = statement_writer::line(out, at, t);
    }
    at
}
