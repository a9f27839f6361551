// Names of stages: whether bytes are one, and a name filled up with zero bytes.
#![tactic(auto)]

ghost use Rattle.std.specs.Prelude.{◌≡◌, ℕ, ◌≤◌, ◌<◌, length, get_or, take, replicate};
ghost use Rattle.base.specs.Decides.{Decides};
ghost use Rattle.stage_names.specs.Names.{name_bytes, filled, Letter, Letters, Named, ValidName};

// A name has 1 to 8 bytes.
pub const NAME_BYTES: usize = 8;

// The refusal of a wrong name.
pub const NAME_NUMBER: u8 = 23;

// How many letters stand at the front.
fn letters(s: &[u8]) -> usize
    ensures { (result ≤ length s.now) × Letters s.now result × (result < length s.now → Letter (get_or s.now result 0) → ⊥) }
{
    s.iter()
        .position(|b| !b.is_ascii_lowercase())
        .unwrap_or(s.len())
}

// Whether the bytes are a name.
pub fn valid(s: &[u8]) -> bool
    ensures { Decides result (ValidName s.now) }
{
    let n = s.len();
    if n == 0 {
        return false;
    }
    if NAME_BYTES < n {
        return false;
    }
    letters(s) == n
}

// Whether all bytes are zero.
fn zeros(s: &[u8]) -> bool
    ensures { Decides result ((i : ℕ) → i < length s.now → get_or s.now i 0 ≡ 0) }
{
    s.iter().all(|b| *b == 0)
}

// Whether the eight bytes are a name, filled up with zero bytes.
pub fn named(s: &[u8]) -> bool
    requires { length s.now ≡ name_bytes }
    ensures { Decides result (Named s.now) }
{
    let n = letters(s);
    if n == 0 {
        return false;
    }
    zeros(&s[n..])
}

// An array to be filled.
fn blank() -> [u8; NAME_BYTES]
    ensures { result ≡ replicate name_bytes 0 }
{
    [0; NAME_BYTES]
}

// The name, filled up with zero bytes.
pub fn fill(name: &[u8]) -> [u8; NAME_BYTES]
    requires { length name.now ≤ name_bytes }
    ensures { result ≡ filled name.now }
{
    let mut out = blank();
    statement_writer::word(&mut out, 0, name);
    out
}

// Whether the bytes begin with the eight of the key.
pub fn begins(s: &[u8], key: &[u8]) -> bool
    requires { (name_bytes ≤ length s.now) × (length key.now ≡ name_bytes) }
    ensures { Decides result (take name_bytes s.now ≡ key.now) }
{
    s.starts_with(key)
}
