// Sets of places as rows of 64-bit words, of any length: bit b of word w is place 64 w + b.
#![tactic(auto)]

ghost use Rattle.std.specs.Prelude.{◌≡◌, false, ◌||◌, ◌&&◌, not, ℕ, ◌-◌, ◌*◌, ◌≤◌, ◌<◌, length, eqb, ltb};
ghost use Rattle.bits.specs.Row.{words, bit, member, count_below, First, Zeros, Alike, Combined};

// The most words of a row whose members are counted.
pub const WORDS: usize = 16;

// Room for a row of any length up to WORDS.
#[tactic(auto, using(crate::proofs::Rows::zeros))]
pub fn blank() -> [u64; WORDS]
    ensures { Zeros words result }
{
    [0; WORDS]
}

// Whether place i is in the set.
pub fn contains(row: &[u64], i: usize) -> bool
    requires { i < length row.now * 64 }
    ensures { result ≡ member row.now i }
{
    (row[i / 64] >> (i % 64)) & 1 == 1
}

// The set with place i.
pub fn insert(row: &mut [u64], i: usize)
    requires { i < length row.old * 64 }
    ensures { (j : ℕ) → member row.new j ≡ (member row.old j || eqb i j) }
{
    row[i / 64] |= 1 << (i % 64);
}

// Each word of the row, made by the operation from the word of a and its own.
fn change<F: Fn(u64, u64) -> u64>(a: &[u64], row: &mut [u64], operation: F)
    requires callable { F.IsAlwaysCallable operation }
    requires alike { length a.now ≡ length row.old }
    ensures { Combined (F.post operation) a.now row.old row.new }
{
    for k in 0..row.len() {
        row[k] = operation(a[k], row[k]);
    }
}

// Each word, made by the operation from the words of a and b.
fn combine<F: Fn(u64, u64) -> u64>(a: &[u64], b: &[u64], out: &mut [u64], operation: F)
    requires callable { F.IsAlwaysCallable operation }
    requires alike { Alike a.now b.now out.old }
    ensures { Combined (F.post operation) a.now b.now out.new }
{
    for k in 0..out.len() {
        out[k] = operation(a[k], b[k]);
    }
}

// The places that are in both sets.
pub fn intersection(a: &[u64], b: &[u64], out: &mut [u64])
    requires { Alike a.now b.now out.old }
    ensures { (j : ℕ) → member out.new j ≡ (member a.now j && member b.now j) }
{
    combine(a, b, out, |x, y| x & y);
}

// The places that are in one set or the other.
pub fn union(a: &[u64], b: &[u64], out: &mut [u64])
    requires { Alike a.now b.now out.old }
    ensures { (j : ℕ) → member out.new j ≡ (member a.now j || member b.now j) }
{
    combine(a, b, out, |x, y| x | y);
}

// The places of a that are not in b.
pub fn difference(a: &[u64], b: &[u64], out: &mut [u64])
    requires { Alike a.now b.now out.old }
    ensures { (j : ℕ) → member out.new j ≡ (member a.now j && not (member b.now j)) }
{
    combine(a, b, out, |x, y| x & (y ^ u64::MAX));
}

// The places of `all` that are not in the row, in its place.
pub fn complement(all: &[u64], row: &mut [u64])
    requires { length all.now ≡ length row.old }
    ensures { (j : ℕ) → member row.new j ≡ (member all.now j && not (member row.old j)) }
{
    change(all, row, |x, y| x & (y ^ u64::MAX));
}

// No place.
pub fn clear(row: &mut [u64])
    ensures { (j : ℕ) → member row.new j ≡ false }
{
    row.fill(0);
}

// The word of the bits below c.
fn mask(c: usize) -> u64
    ensures { (b : ℕ) → b < 64 → bit result b ≡ ltb b c }
{
    if c < 64 { (1 << c) - 1 } else { u64::MAX }
}

// The places below n.
pub fn below(n: usize, row: &mut [u64])
    requires { n ≤ length row.old * 64 }
    ensures { (j : ℕ) → member row.new j ≡ ltb j n }
{
    let mut left = n;
    for word in row.iter_mut() {
        *word = mask(left);
        left = left.saturating_sub(64);
    }
}

// How many places are in the set.
pub fn count(row: &[u64]) -> u32
    requires { length row.now ≤ words }
    ensures { result ≡ count_below (member row.now) (length row.now * 64) }
{
    let mut n: u32 = 0;
    for word in row {
        n += word.count_ones();
    }
    n
}

// The first place of the set, or the number past its last word.
pub fn first(row: &[u64]) -> usize
    requires { length row.now ≤ words }
    ensures { First (member row.now) (length row.now * 64) result }
{
    for (k, word) in row.iter().enumerate() {
        if *word != 0 {
            return k * 64 + (word.trailing_zeros() as usize);
        }
    }
    row.len() * 64
}
