// What the calls with two texts share: their refusals, the order of these, and what is known of the program that was read.
#![tactic(auto)]

ghost use Rattle.std.specs.Prelude.{◌≡◌};
ghost use Rattle.calls.specs.Refusals.{number_of};

use refusals::Numbered;

// The refusal of a call to which too little memory is lent.
pub const ROOM_NUMBER: u8 = 1;

// Why a call is refused: too little memory is lent, the program's text isn't taken, or the second text isn't.
#[derive(Clone, Copy)]
pub enum Refusal<R> {
    Room,
    Program(program::Refusal),
    Text(R),
}

impl<R: Numbered> Numbered for Refusal<R> {
    ghost number = { number_of R.number };

    fn number(self) -> u8 {
        match self {
            Refusal::Room => ROOM_NUMBER,
            Refusal::Program(refusal) => refusal.number(),
            Refusal::Text(refusal) => refusal.number(),
        }
    }
}

impl<R> From<program::Refusal> for Refusal<R> {
    ghost use Rattle.std.specs.Prelude.{◌≡◌};
    ghost use Rattle.calls.specs.declared.Refusal.TheVariants.{Program};

    ghost from_gives = { λ refusal given. given ≡ Program refusal };

    fn from(refusal: program::Refusal) -> Refusal<R> {
        Refusal::Program(refusal)
    }
}
