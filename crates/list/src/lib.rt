// A call: the list of the statements that define and that use each variable of a program. It takes any bytes, and has no `requires`.
#![tactic(auto)]

ghost use Rattle.std.specs.Prelude.{◌≡◌};
ghost use Rattle.list.specs.List.{number, ListAnswers};

use calls::ROOM_NUMBER;
use listing::{LIST_WORDS, Ones};
use refusals::Numbered;

// Why there is no list: too few words are lent, or the text isn't taken.
#[derive(Clone, Copy)]
pub enum Refusal {
    Room,
    Program(program::Refusal),
}

impl Numbered for Refusal {
    ghost number = { number };

    fn number(self) -> u8 {
        match self {
            Refusal::Room => ROOM_NUMBER,
            Refusal::Program(refusal) => refusal.number(),
        }
    }
}

impl From<program::Refusal> for Refusal {
    ghost use Rattle.std.specs.Prelude.{◌≡◌};
    ghost use Rattle.list.specs.declared.Refusal.TheVariants.{Program};

    ghost from_gives = { λ refusal given. given ≡ Program refusal };

    fn from(refusal: program::Refusal) -> Refusal {
        Refusal::Program(refusal)
    }
}

// Makes the program's list in the lent words.
pub fn list(program: &[u8], list: &mut [u64]) -> Result<Ones, Refusal>
    ensures { ListAnswers program.now list.old list.new result }
{
    if list.len() < LIST_WORDS {
        return Err(Refusal::Room);
    }
    let p = program::read(program)?;
    listing::make(p, list);
    Ok(listing::listed(&*list))
}
