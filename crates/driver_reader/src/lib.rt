// The reader of the driver's list: the variables that are his, each once, with single spaces between them.
#![tactic(auto)]

ghost use Rattle.std.specs.Prelude.{◌≡◌, false, ℕ, ◌*◌, ◌≤◌, length};
ghost use Rattle.language.specs.Spelling.{variables};
ghost use Rattle.bits.specs.Row.{member};
ghost use Rattle.driver_reader.specs.Names.{DriverRead, NamesRead};

// The refusal of a list that is misspelled, or names a variable twice.
pub const DRIVER_NUMBER: u8 = 22;

// Whether the text is such a list; the variables are put into an empty set as they are read.
fn names(s: &[u8], named: &mut [u64]) -> bool
    requires variables_in_bounds { variables ≤ length named.old * 64 }
    requires by_index { (x : ℕ) → member named.old x ≡ false }
    ensures { NamesRead s.now result (member named.new) }
{
    let n = s.len();
    if n == 0 {
        return true;
    }
    let mut at: usize = 0;
    // A `while`: each name tells where the next one begins, so no slice or range has the names that a `for` would go over.
    while at < n {
        let Some((x, k)) = tokens::variable(s, at) else {
            return false;
        };
        if bits::contains(named, x as usize) {
            return false;
        }
        bits::insert(named, x as usize);
        if k == n {
            return true;
        }
        if s[k] != b' ' {
            return false;
        }
        at = k + 1;
    }
    false
}

// Whether the text is such a list, with the variables that it names, or none, in `named`.
pub fn read(s: &[u8], named: &mut [u64]) -> bool
    requires { variables ≤ length named.old * 64 }
    ensures { DriverRead s.now result (member named.new) }
{
    bits::clear(named);
    if names(s, named) {
        return true;
    }
    bits::clear(named);
    false
}
