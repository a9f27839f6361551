// Verdicts and their numbers.
#![tactic(auto)]

ghost use Rattle.std.specs.Prelude.{◌≡◌};
ghost use Rattle.base.specs.Decides.{Decides};
ghost use Rattle.marks.specs.Marks.{names};
ghost use Rattle.rewriting.specs.Verdicts.{Stands};

use marks::Mark;

// What a mark gets: accepted; no such statement; an earlier line names it; the mark doesn't fit; it would drop what may fault; its condition is
// false.
#[derive(Clone, Copy)]
pub enum Verdict {
    Accepted,
    Missing,
    Repeated,
    Unfit,
    MayFault,
    Unmet,
}

// The number of a verdict in documents 01 and 02.
impl From<Verdict> for u8 {
    ghost use Rattle.std.specs.Prelude.{◌≡◌};
    ghost use Rattle.rewriting.specs.Verdicts.{number};

    ghost from_gives = { λ v n. n ≡ number v };

    fn from(v: Verdict) -> u8 {
        match v {
            Verdict::Accepted => 0,
            Verdict::Missing => 11,
            Verdict::Repeated => 12,
            Verdict::Unfit => 13,
            Verdict::MayFault => 18,
            Verdict::Unmet => 14,
        }
    }
}

// Whether the verdict is one of a mark whose statement the program has.
pub fn stands(v: Verdict) -> bool
    ensures { Decides result (Stands v) }
{
    !matches!(v, Verdict::Missing)
}

// The number of the statement that the mark names.
pub fn statement_of(m: Mark) -> u32
    ensures { result ≡ names m }
{
    match m {
        Mark::Rm(n, _, _) | Mark::Rpl(n, _, _) | Mark::Cse(n, _, _) => n,
    }
}
