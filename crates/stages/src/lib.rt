// Stages with a name in lent bytes: the eight places, which of them holds a name, and which one a stage takes that is kept.
#![tactic(auto)]

ghost use Rattle.std.specs.Prelude.{◌≡◌, ℕ, ◌≤◌, ◌<◌, length, take};
ghost use Rattle.base.specs.Decides.{Decides};
ghost use Rattle.stage_names.specs.Names.{name_bytes, ValidName};
ghost use Rattle.stages.specs.Stages.{places, stage_bytes, place_room, place, length_in};
ghost use Rattle.stages.specs.Choice.{Occupied, Unknown, Finds, FindsEmpty, Chooses};
ghost use Rattle.stages.specs.Looking.{TextTaken, Repeated};

use stage_names::NAME_BYTES;

// Eight places, each an eighth of these bytes.
pub const PLACES: usize = 8;

pub const STAGE_BYTES: usize = 280000;

pub const PLACE_ROOM: usize = STAGE_BYTES / PLACES;

// A place has the name, the text's length in two bytes, low byte first, and the text.
const LENGTH_BYTES: usize = 2;

pub const HEAD_BYTES: usize = NAME_BYTES + LENGTH_BYTES;

pub const MOST_TEXT: usize = PLACE_ROOM - HEAD_BYTES;

// The bytes of place k.
pub fn part(stages: &[u8], k: usize) -> &[u8]
    requires { (stage_bytes ≤ length stages.now) × (k < places) }
    ensures { (result.now ≡ place stages.now k) × (length result.now ≡ place_room) }
{
    let at = PLACE_ROOM * k;
    let end = at + PLACE_ROOM;
    &stages[at..end]
}

// The bytes of a place's name.
fn name_of(bytes: &[u8]) -> &[u8]
    requires { length bytes.now ≡ place_room }
    ensures { (result.now ≡ take name_bytes bytes.now) × (length result.now ≡ name_bytes) }
{
    &bytes[0..NAME_BYTES]
}

// The length that a place tells.
pub fn length_of(bytes: &[u8]) -> usize
    requires { length bytes.now ≡ place_room }
    ensures { result ≡ length_in bytes.now }
{
    u16::from_le_bytes([bytes[NAME_BYTES], bytes[NAME_BYTES + 1]]) as usize
}

// Whether a place's text lies within it and is taken.
fn text_taken(bytes: &[u8]) -> bool
    requires { length bytes.now ≡ place_room }
    ensures { Decides result (TextTaken bytes.now) }
{
    let n = length_of(bytes);
    if MOST_TEXT < n {
        return false;
    }
    let end = HEAD_BYTES + n;
    match program::read(&bytes[HEAD_BYTES..end]) {
        Ok(_) => true,
        Err(_) => false,
    }
}

// Whether a stage stands right under the name that the bytes of the key are. The text is read only where the name stands.
fn stands(bytes: &[u8], key: &[u8]) -> bool
    requires { (length bytes.now ≡ place_room) × (length key.now ≡ name_bytes) }
    ensures { Decides result ((take name_bytes bytes.now ≡ key.now) × TextTaken bytes.now) }
{
    if !stage_names::begins(bytes, key) {
        return false;
    }
    text_taken(bytes)
}

// The place, from 0 on, that holds the name.
pub fn find(stages: &[u8], name: &[u8]) -> Option<usize>
    requires { (stage_bytes ≤ length stages.now) × ValidName name.now }
    ensures { Finds stages.now name.now result }
{
    let key = stage_names::fill(name);
    for k in 0..PLACES {
        if stands(part(stages, k), &key) {
            return Some(k);
        }
    }
    None
}

// Whether a place before k has the bytes of k's name.
fn repeated(stages: &[u8], k: usize) -> bool
    requires { (stage_bytes ≤ length stages.now) × (k < places) }
    ensures { Decides result (Repeated stages.now k) }
{
    let name = name_of(part(stages, k));
    for j in 0..k {
        if stage_names::begins(part(stages, j), name) {
            return true;
        }
    }
    false
}

// Whether place k holds a stage, where all before it do. Its text is read last.
fn occupied(stages: &[u8], k: usize) -> bool
    requires stage_bytes_in_bounds { (stage_bytes ≤ length stages.now) × (k < places) }
    requires by_index { (j : ℕ) → j < k → Occupied stages.now j }
    ensures { Decides result (Occupied stages.now k) }
{
    let bytes = part(stages, k);
    if !stage_names::named(name_of(bytes)) {
        return false;
    }
    if repeated(stages, k) {
        return false;
    }
    text_taken(bytes)
}

// The first empty place, where no stage has the name. A place with that name is empty, and its text isn't read again.
fn first_empty(stages: &[u8], name: &[u8]) -> Option<usize>
    requires { (stage_bytes ≤ length stages.now) × ValidName name.now × Unknown stages.now name.now }
    ensures { FindsEmpty stages.now result }
{
    let key = stage_names::fill(name);
    for k in 0..PLACES {
        if stage_names::begins(part(stages, k), &key) {
            return Some(k);
        }
        if !occupied(stages, k) {
            return Some(k);
        }
    }
    None
}

// The place of a stage that is kept under the name: the one that holds the name, or else the first empty one.
pub fn choose(stages: &[u8], name: &[u8]) -> Option<usize>
    requires { (stage_bytes ≤ length stages.now) × ValidName name.now }
    ensures { Chooses stages.now name.now result }
{
    find(stages, name).or_else(|| first_empty(stages, name))
}
