// A call: joins a road and a creeper program into one. It takes any bytes, and has no `requires`.
#![tactic(auto)]

ghost use Rattle.join.specs.Join.{number, JoinAnswers};

use program::{MOST, TEXT_ROOM};
use refusals::Numbered;

// The new text has at least this many bytes.
pub const TEXT_BYTES: usize = TEXT_ROOM;

// The refusal of two programs that are too long together.
pub const LONG_NUMBER: u8 = 21;

// Why a call is refused whose road text is taken: the creeper's isn't, or both are too long together.
#[derive(Clone, Copy)]
pub enum Refusal {
    Creeper(program::Refusal),
    Long,
}

impl Numbered for Refusal {
    ghost number = { number };

    fn number(self) -> u8 {
        match self {
            Refusal::Creeper(refusal) => refusal.number(),
            Refusal::Long => LONG_NUMBER,
        }
    }
}

// The statements of the joined program, and the bytes of its text.
#[derive(Clone, Copy)]
pub struct Joined {
    pub statements: u32,
    pub bytes: u32,
}

// Puts the text of the joined program at the front of the lent bytes.
pub fn join(road: &[u8], creeper: &[u8], text: &mut [u8]) -> Result<Joined, calls::Refusal<Refusal>>
    ensures { JoinAnswers road.now creeper.now text.old text.new result }
{
    if text.len() < TEXT_BYTES {
        return Err(calls::Refusal::Room);
    }
    let p = program::read(road)?;
    let q = match program::read(creeper) {
        Ok(q) => q,
        Err(refusal) => {
            return Err(calls::Refusal::Text(Refusal::Creeper(refusal)));
        }
    };
    if MOST + 1 < p.count + q.count {
        return Err(calls::Refusal::Text(Refusal::Long));
    }
    let bytes = joining::write(p, q, text);
    Ok(Joined {
        statements: (p.count + q.count - 1) as u32,
        bytes: bytes as u32,
    })
}
