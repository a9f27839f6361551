// Keys of parts, each held once and looked up by its hash.
#![tactic(auto)]

ghost use Rattle.std.specs.Prelude.{◌≡◌, ◌+◌, ◌≤◌, ◌<◌, length, set, MatchOption};
ghost use Rattle.base.specs.Decides.{Decides};
ghost use Rattle.bits.specs.Row.{Zeros};
ghost use Rattle.sharing.specs.Sharing.{most_tables};
ghost use Rattle.keys.specs.Store.{span, key_in, Formed, lists, hash_from, hash_of, Store, Keyed, Unkeyed};

use condition::{END, FIELD, LEFT, START};
use sharing::MOST_TABLES;

// Keys are listed by this many hashes.
pub const LISTS: usize = 256;

pub fn blank_entries() -> [u64; MOST_TABLES]
    ensures { Zeros most_tables result }
{
    [0; MOST_TABLES]
}

pub fn blank_links() -> [u16; MOST_TABLES]
    ensures { Zeros most_tables result }
{
    [0; MOST_TABLES]
}

pub fn blank_heads() -> [u16; LISTS]
    ensures { Zeros lists result }
{
    [0; LISTS]
}

// The hash of the bytes from `start` to `end`.
fn hash_text(text: &[u8], start: usize, end: usize) -> usize
    requires { (start ≤ end) × (end ≤ length text.now) }
    ensures { result ≡ hash_from 0 (span start end text.now) }
{
    let mut h: usize = 0;
    for i in start..end {
        h = (h * 31 + text[i] as usize) % 65536;
    }
    h
}

// The hash of the key that the entry w tells.
fn hash_of(text: &[u8], w: u64) -> usize
    requires { Formed text.now w }
    ensures { (result < lists) × (result ≡ hash_of (key_in text.now w)) }
{
    let code = w % LEFT;
    let start = w / START % FIELD;
    if code == 0 {
        let end = w / END;
        let h = hash_text(text, start as usize, end as usize);
        return h % LISTS;
    }
    let left = w / LEFT % FIELD;
    ((code * 7 + left * 37 + start * 86) % (LISTS as u64)) as usize
}

// Whether the bytes from a to b are those from c to d.
fn same_bytes(text: &[u8], a: usize, b: usize, c: usize, d: usize) -> bool
    requires { (a ≤ b) × (b ≤ length text.now) × (c ≤ d) × (d ≤ length text.now) }
    ensures { Decides result (span a b text.now ≡ span c d text.now) }
{
    text[a..b] == text[c..d]
}

// Whether two entries tell one key.
fn same_key(text: &[u8], v: u64, w: u64) -> bool
    requires { Formed text.now v × Formed text.now w }
    ensures { Decides result (key_in text.now v ≡ key_in text.now w) }
{
    if v % LEFT != 0 {
        return v == w;
    }
    if w % LEFT != 0 {
        return false;
    }
    let a = (v / START % FIELD) as usize;
    let b = (v / END) as usize;
    let c = (w / START % FIELD) as usize;
    let d = (w / END) as usize;
    same_bytes(text, a, b, c, d)
}

// The number of the entry that tells the key of w, if one does.
pub fn find(
    text: &[u8],
    w: u64,
    entries: &[u64],
    links: &[u16],
    heads: &[u16],
    count: usize,
) -> Option<usize>
    requires { Formed text.now w × Store text.now entries.now links.now heads.now count }
    ensures { MatchOption result (Unkeyed text.now entries.now count w) (Keyed text.now entries.now count w) }
{
    let h = hash_of(text, w);
    let mut p = heads[h] as usize;
    // Lists of numbers, not of boxes: the project allocates nothing.
    while 0 < p {
        let i = p - 1;
        if same_key(text, entries[i], w) {
            return Some(i);
        }
        p = links[i] as usize;
    }
    None
}

// One entry more.
pub fn add(
    text: &[u8],
    w: u64,
    entries: &mut [u64],
    links: &mut [u16],
    heads: &mut [u16],
    count: usize,
)
    requires formed { Formed text.now w × Store text.now entries.old links.old heads.old count }
    requires count_lt_most_tables { count < most_tables }
    ensures store { Store text.now entries.new links.new heads.new (count + 1) }
    ensures entries_after { entries.new ≡ set entries.old count w }
{
    let h = hash_of(text, w);
    entries[count] = w;
    links[count] = heads[h];
    heads[h] = (count + 1) as u16;
}
