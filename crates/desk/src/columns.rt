// Columns: numbers, statements and values at a fixed width.
ghost use Rattle.std.specs.Prelude.{◌≡◌, length, ◌≤◌, ◌+◌, ◌-◌};
ghost use Rattle.language.specs.Spelling.{digits, signed_digits, spell};
ghost use Rattle.statement_writer.specs.Writing.{Put};
ghost use Rattle.desk.specs.Columns.{spaces as blanks, wide, padded};

use language::Statement;

// The columns of a statement's number, and of its text.
pub const NUMBER_COLUMNS: usize = 4;

pub const STATEMENT_COLUMNS: usize = 32;

pub fn spaces(out: &mut [u8], at: usize, n: usize) -> usize
    requires { at + n ≤ length out.old }
    ensures { Put out.old at (blanks n) out.new result }
{
    let end = at + n;
    out[at..end].fill(b' ');
    end
}

// What is left of w columns after n.
fn gap(w: usize, n: usize) -> usize
    ensures { result ≡ w - n }
{
    w.saturating_sub(n)
}

fn digit_count(n: u32) -> usize
    ensures { result ≡ length (digits n) }
{
    if n < 10 { 1 } else { digit_count(n / 10) + 1 }
}

// The number, right-aligned in w columns.
pub fn number(out: &mut [u8], at: usize, w: usize, n: u32) -> usize
    requires { at + length (wide w n) ≤ length out.old }
    ensures { Put out.old at (wide w n) out.new result }
{
    let k = spaces(out, at, gap(w, digit_count(n)));
    statement_writer::number(out, k, n)
}

// The statement's text, filled with spaces to w columns.
pub fn statement(out: &mut [u8], at: usize, w: usize, s: Statement) -> usize
    requires { at + length (padded w (spell s)) ≤ length out.old }
    ensures { Put out.old at (padded w (spell s)) out.new result }
{
    let k = statement_writer::statement(out, at, s);
    spaces(out, k, gap(w, k - at))
}

// A signed value, spelled as a constant is.
pub fn signed(out: &mut [u8], at: usize, v: i32) -> usize
    requires { at + length (signed_digits v) ≤ length out.old }
    ensures { Put out.old at (signed_digits v) out.new result }
{
    statement_writer::constant(out, at, v.cast_unsigned())
}
