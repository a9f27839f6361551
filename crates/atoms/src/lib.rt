// What is found once of a program's statements, and the row of an atom from it.
#![tactic(auto)]

ghost use Rattle.std.specs.Prelude.{◌≡◌, false, List, ℕ, ◌+◌, ◌≤◌, ◌<◌, eqb, length};
ghost use Rattle.language.specs.Spelling.{ValidVariable, ValidOperand, ValidExpression, Valid};
ghost use Rattle.language.specs.Kept.{kept_count};
ghost use Rattle.language.specs.declared.Statement.{Statement as StatementOf};
ghost use Rattle.program.specs.Program.{at, most, row_words, WellFormed};
ghost use Rattle.program.specs.Reading.{statements, Held};
ghost use Rattle.bits.specs.Row.{member, row_of, Zeros, ZeroRows};
ghost use Rattle.ctl.specs.Paths.{So};
ghost use Rattle.labelling.specs.Labels.{Labelled};
ghost use Rattle.condition.specs.Condition.{ValidAtom};
ghost use Rattle.truth.specs.Truth.{InOperand, In, Defines, HoldsBy};
ghost use Rattle.codes.specs.Codes.{code_word_count};
ghost use Rattle.atoms.specs.Facts.{defined_row, used_row, fact_rows, fact_words, Placeless, Found, used_in, FactsIn, Sized, noted_operand, noted_expression, noted_kept, noted, Marked};

use codes::CODE_WORDS;
use condition::Atom;
use language::{Expression, FIRST_KEPT, KEPT, Operand, Statement};
use program::{MOST, Program, ROW_WORDS};

// A variable has two rows, one after the other: the places that define it, and those that use it.
const FACT_WORDS: usize = ROW_WORDS * 2 * (language::VARIABLES as usize);

// Rows of the variables and codes of the statements, to be filled.
pub fn blank() -> [u64; FACT_WORDS]
    ensures { Zeros fact_words result }
{
    [0; FACT_WORDS]
}

pub fn blank_codes() -> [[u64; CODE_WORDS]; MOST]
    ensures { ZeroRows most code_word_count result }
{
    [[0; CODE_WORDS]; MOST]
}

// No room for codes.
pub fn no_codes() -> [[u64; CODE_WORDS]; 0]
    ensures { length result ≡ 0 }
{
    [[0; CODE_WORDS]; 0]
}

// The row of the places that define a variable.
fn defined_row(x: u8) -> usize
    ensures { result ≡ defined_row x }
{
    2 * (x as usize)
}

// The row of the places that use it.
fn used_row(x: u8) -> usize
    ensures { result ≡ used_row x }
{
    2 * (x as usize) + 1
}

// The words of row k.
fn row_at(rows: &[u64], k: usize) -> &[u64]
    requires { (k < fact_rows) × (length rows.now ≡ fact_words) }
    ensures { result.now ≡ row_of row_words rows.now k }
{
    let at = ROW_WORDS * k;
    let end = at + ROW_WORDS;
    &rows[at..end]
}

// Adds place s to row k.
fn mark(k: usize, s: usize, rows: &mut [u64])
    requires { (k < fact_rows) × (s < most) × (length rows.old ≡ fact_words) }
    ensures { Marked rows.old rows.new (eqb k) s }
{
    let at = ROW_WORDS * k;
    let end = at + ROW_WORDS;
    bits::insert(&mut rows[at..end], s);
}

// The variable is defined at place s.
fn define(x: u8, s: usize, rows: &mut [u64])
    requires { ValidVariable x × (s < most) × (length rows.old ≡ fact_words) }
    ensures { Marked rows.old rows.new (eqb (defined_row x)) s }
{
    mark(defined_row(x), s, rows);
}

// The variable counts as used at place s.
pub fn use_also(x: u8, s: usize, rows: &mut [u64])
    requires { ValidVariable x × (s < most) × (length rows.old ≡ fact_words) }
    ensures { Marked rows.old rows.new (eqb (used_row x)) s }
{
    mark(used_row(x), s, rows);
}

// The operand's variable is used at place s.
fn note_operand(a: Operand, s: usize, rows: &mut [u64])
    requires { ValidOperand a × (s < most) × (length rows.old ≡ fact_words) }
    ensures { Marked rows.old rows.new (noted_operand a) s }
{
    match a {
        Operand::Variable(x) => use_also(x, s, rows),
        Operand::Constant(_) => {}
    }
}

// The expression's variables are used at place s.
fn note_expression(e: Expression, s: usize, rows: &mut [u64])
    requires { ValidExpression e × (s < most) × (length rows.old ≡ fact_words) }
    ensures { Marked rows.old rows.new (noted_expression e) s }
{
    match e {
        Expression::Single(a) => note_operand(a, s, rows),
        Expression::Binary(a, _, b) => {
            note_operand(a, s, rows);
            note_operand(b, s, rows);
        }
    }
}

// The kept variables are used at place s.
fn note_kept(s: usize, rows: &mut [u64])
    requires { (s < most) × (length rows.old ≡ fact_words) }
    ensures { Marked rows.old rows.new (noted_kept kept_count) s }
{
    for k in 0..KEPT {
        let x = FIRST_KEPT + k;
        use_also(x as u8, s, rows);
    }
}

// The variables that the statement at place s defines and uses.
fn note(i: Statement, s: usize, rows: &mut [u64])
    requires { Valid i × (s < most) × (length rows.old ≡ fact_words) }
    ensures { Marked rows.old rows.new (noted i) s }
{
    match i {
        Statement::Read(x) => define(x, s, rows),
        Statement::Write(x) => {
            use_also(x, s, rows);
            note_kept(s, rows);
        }
        Statement::Assign(x, e) => {
            define(x, s, rows);
            note_expression(e, s, rows);
        }
        Statement::Branch(x, _, _) => use_also(x, s, rows),
        Statement::Skip => {}
    }
}

// The facts of the program's statements: the rows of the variables, and the codes of as many statements as there is room for.
pub fn find(p: Program, rows: &mut [u64], codes: &mut [[u64; CODE_WORDS]])
    requires held { Held p }
    requires well_formed { WellFormed (statements p) }
    requires placeless { Placeless rows.old }
    ensures { Found (statements p) rows.new (length codes.old) codes.new }
{
    for s in 0..p.count {
        let i = encoding::statement_of(p.entries[s]);
        note(i, s, rows);
        if s < codes.len() {
            codes[s] = codes::words_of(codes::statement_code(i));
        }
    }
}

// Room for a row.
pub fn blank_row() -> [u64; ROW_WORDS]
    ensures { Zeros row_words result }
{
    [0; ROW_WORDS]
}

// The place of statement m, where there is one among n.
fn numbered(m: usize, n: usize, out: &mut [u64])
    requires { (n ≤ most) × (length out.old ≡ row_words) }
    ensures { Labelled n (member out.new) (λ s. s + 1 ≡ m) }
{
    bits::clear(out);
    if m < 1 {
        return;
    }
    if n < m {
        return;
    }
    bits::insert(out, m - 1);
}

// The same places.
pub fn copy(from: &[u64], out: &mut [u64])
    requires { length from.now ≡ length out.old }
    ensures { (j : ℕ) → member out.new j ≡ member from.now j }
{
    out.copy_from_slice(from);
}

// The places below n at which the statement i stands.
fn statement_row(i: Statement, n: usize, codes: &[[u64; CODE_WORDS]], out: &mut [u64])
    requires { (n ≤ most) × (length codes.now ≡ most) × (length out.old ≡ row_words) }
    ensures { (P : List StatementOf) (rows : List ℕ) → FactsIn P n rows codes.now → Labelled n (member out.new) (λ s. at P s ≡ i) }
{
    let c = codes::statement_code(i);
    bits::clear(out);
    for s in 0..n {
        if codes::same_words(c, &codes[s]) {
            bits::insert(out, s);
        }
    }
}

// The places of `all` at which the operand's variable is not defined.
fn keeping(a: Operand, all: &[u64], rows: &[u64], out: &mut [u64])
    requires valid_operand { ValidOperand a × (length rows.now ≡ fact_words) }
    requires all_len { (length all.now ≡ row_words) × (length out.old ≡ row_words) }
    ensures { (P : List StatementOf) (n : ℕ) (codes : List (List ℕ)) → FactsIn P n rows.now codes → ((s : ℕ) → n ≤ s → member all.now s ≡ false) → Labelled n (member out.new) (λ s. So (member all.now) s × ((x : ℕ) → InOperand x a → Defines (at P s) x → ⊥)) }
{
    match a {
        Operand::Variable(x) => bits::difference(all, row_at(rows, defined_row(x)), out),
        Operand::Constant(_) => copy(all, out),
    }
}

// The places below n at which no variable of the expression is defined.
fn trans_row(e: Expression, n: usize, rows: &[u64], out: &mut [u64])
    requires valid_expression { ValidExpression e × (length rows.now ≡ fact_words) }
    requires n_le_most { (n ≤ most) × (length out.old ≡ row_words) }
    ensures { (P : List StatementOf) (codes : List (List ℕ)) → FactsIn P n rows.now codes → Labelled n (member out.new) (λ s. (x : ℕ) → In x e → Defines (at P s) x → ⊥) }
{
    let mut places = blank_row();
    bits::below(n, &mut places);
    match e {
        Expression::Single(a) => keeping(a, &places, rows, out),
        Expression::Binary(a, _, b) => {
            let mut left = blank_row();
            keeping(a, &places, rows, &mut left);
            keeping(b, &left, rows, out);
        }
    }
}

// The places of the n statements that these are the facts of, at which the atom holds, variables used as the rows have it.
pub fn row(a: Atom, n: usize, rows: &[u64], codes: &[[u64; CODE_WORDS]], out: &mut [u64])
    requires valid_atom { ValidAtom a × Sized rows.now codes.now }
    requires n_le_most { (n ≤ most) × (length out.old ≡ row_words) }
    ensures { (P : List StatementOf) → length P ≡ n → FactsIn P (length P) rows.now codes.now → Labelled n (member out.new) (HoldsBy (used_in rows.now) P a) }
{
    match a {
        Atom::True => bits::below(n, out),
        Atom::False => bits::clear(out),
        Atom::Entry => numbered(1, n, out),
        Atom::Exit => numbered(n, n, out),
        Atom::Node(m) => numbered(m as usize, n, out),
        Atom::Stmt(i) => statement_row(i, n, codes, out),
        Atom::Def(x) => copy(row_at(rows, defined_row(x)), out),
        Atom::Use(x) => copy(row_at(rows, used_row(x)), out),
        Atom::Trans(e) => trans_row(e, n, rows, out),
    }
}
