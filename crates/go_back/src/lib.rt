// A call: returns to the program that is kept under a name. It takes any bytes, and has no `requires`.
#![tactic(auto)]

ghost use Rattle.go_back.specs.Return.{number, ReturnAnswers};

use calls::ROOM_NUMBER;
use program::TEXT_ROOM;
use refusals::Numbered;
use stage_names::NAME_NUMBER;
use stages::{HEAD_BYTES, STAGE_BYTES};

// The text has at least this many bytes.
pub const TEXT_BYTES: usize = TEXT_ROOM;

// The number of the refusal of a name that no place holds.
pub const UNKNOWN_NUMBER: u8 = 25;

// Why a return is refused: too little memory is lent, the name is wrong, or no place holds it.
#[derive(Clone, Copy)]
pub enum Refusal {
    Room,
    Misnamed,
    Unknown,
}

impl Numbered for Refusal {
    ghost number = { number };

    fn number(self) -> u8 {
        match self {
            Refusal::Room => ROOM_NUMBER,
            Refusal::Misnamed => NAME_NUMBER,
            Refusal::Unknown => UNKNOWN_NUMBER,
        }
    }
}

// Puts the text that is kept under the name at the front of the lent bytes: how many bytes it has.
pub fn go_back(stages: &[u8], name: &[u8], text: &mut [u8]) -> Result<u32, Refusal>
    ensures { ReturnAnswers stages.now name.now text.old text.new result }
{
    if stages.len() < STAGE_BYTES {
        return Err(Refusal::Room);
    }
    if text.len() < TEXT_BYTES {
        return Err(Refusal::Room);
    }
    if !stage_names::valid(name) {
        return Err(Refusal::Misnamed);
    }
    let Some(k) = stages::find(stages, name) else {
        return Err(Refusal::Unknown);
    };
    let place = stages::part(stages, k);
    let end = HEAD_BYTES + stages::length_of(place);
    let bytes = statement_writer::word(text, 0, &place[HEAD_BYTES..end]);
    Ok(bytes as u32)
}
