// A call: keeps a program under a name. It takes any bytes, and has no `requires`.
#![tactic(auto)]

ghost use Rattle.std.specs.Prelude.{◌≡◌, ◌*◌, ◌≤◌, ◌<◌, length};
ghost use Rattle.std.proofs.lemmas.List.Edits.{sets};
ghost use Rattle.program.specs.Program.{text_room};
ghost use Rattle.stage_names.specs.Names.{name_bytes};
ghost use Rattle.stages.specs.Stages.{places, stage_bytes, place_room, written};
ghost use Rattle.keep.specs.Keep.{number, KeepAnswers};

use refusals::Numbered;
use stage_names::NAME_NUMBER;
use stages::{PLACE_ROOM, STAGE_BYTES};

// The number of the refusal of a new name where all places hold others.
pub const FULL_NUMBER: u8 = 24;

// What is refused once the program's text is taken: a wrong name, and a new one where all places hold others.
#[derive(Clone, Copy)]
pub enum Refusal {
    Misnamed,
    Full,
}

impl Numbered for Refusal {
    ghost number = { number };

    fn number(self) -> u8 {
        match self {
            Refusal::Misnamed => NAME_NUMBER,
            Refusal::Full => FULL_NUMBER,
        }
    }
}

// Puts name, length and text at the front of place k.
fn write(stages: &mut [u8], k: usize, name: &[u8], program: &[u8])
    requires { (stage_bytes ≤ length stages.old) × (k < places) × (length name.now ≤ name_bytes) × (length program.now ≤ text_room) }
    ensures { stages.new ≡ sets stages.old (place_room * k) (written name.now program.now) }
{
    let key = stage_names::fill(name);
    let length = program.len();
    let at = statement_writer::word(stages, PLACE_ROOM * k, &key);
    let low = statement_writer::byte(stages, at, (length % 256) as u8);
    let high = statement_writer::byte(stages, low, (length / 256) as u8);
    statement_writer::word(stages, high, program);
}

// Keeps the program under the name, in the place that holds the name or else in the first empty one: the place, from 1 on.
pub fn keep(stages: &mut [u8], name: &[u8], program: &[u8]) -> Result<u32, calls::Refusal<Refusal>>
    ensures { KeepAnswers stages.old name.now program.now stages.new result }
{
    if stages.len() < STAGE_BYTES {
        return Err(calls::Refusal::Room);
    }
    program::read(program)?;
    if !stage_names::valid(name) {
        return Err(calls::Refusal::Text(Refusal::Misnamed));
    }
    let Some(k) = stages::choose(&*stages, name) else {
        return Err(calls::Refusal::Text(Refusal::Full));
    };
    write(stages, k, name, program);
    Ok(k as u32 + 1)
}
