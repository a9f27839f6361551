// The text of a mark's published condition, and of a variable's liveness, which is part of one.
#![tactic(auto)]

ghost use Rattle.std.specs.Prelude.{◌+◌, ◌≤◌, length};
ghost use Rattle.language.specs.Spelling.{ValidVariable, ValidOperand, ValidExpression};
ghost use Rattle.statement_writer.specs.Writing.{Put};
ghost use Rattle.condition.specs.Condition.{spell_condition};
ghost use Rattle.marks.specs.Marks.{ValidMark};
ghost use Rattle.lockstep.specs.Rules.{live, unneeded, copied_before, computed_before, published};
ghost use Rattle.published.specs.Published.{published_room, live_room, sure_text};

use language::{Expression, Operand, Statement, VARIABLE_ROOM};
use marks::Mark;

// A published condition's text has room in this many bytes.
pub const PUBLISHED_ROOM: usize = 160;

// That of a variable's liveness in this many.
pub const LIVE_ROOM: usize = 7 + VARIABLE_ROOM + 8 + VARIABLE_ROOM + 2;

// Puts the text of `E[!def(X) U use(X)]` from `at` on, and answers where it ends.
pub fn write_live(out: &mut [u8], at: usize, x: u8) -> usize
    requires { ValidVariable x × (at + live_room ≤ length out.old) }
    ensures { Put out.old at (spell_condition (live x)) out.new result }
{
    let k1 = statement_writer::word(out, at, b"E[!def(");
    let k2 = statement_writer::variable(out, k1, x);
    let k3 = statement_writer::word(out, k2, b") U use(");
    let k4 = statement_writer::variable(out, k3, x);
    statement_writer::word(out, k4, b")]")
}

// Puts the text of `!EX E[!def(X) U use(X)]` at the front of the lent bytes, and answers its length.
fn write_unneeded(out: &mut [u8], x: u8) -> usize
    requires { ValidVariable x × (published_room ≤ length out.old) }
    ensures { Put out.old 0 (spell_condition (unneeded x)) out.new result }
{
    let k1 = statement_writer::word(out, 0, b"!EX ");
    write_live(out, k1, x)
}

// Puts `AY A[((!def(X) & trans(E)) & !entry) B ` at the front of the lent bytes, and answers its length.
fn write_sure(out: &mut [u8], x: u8, e: Expression) -> usize
    requires { ValidVariable x × ValidExpression e × (published_room ≤ length out.old) }
    ensures { Put out.old 0 (sure_text x e) out.new result }
{
    let k1 = statement_writer::word(out, 0, b"AY A[((!def(");
    let k2 = statement_writer::variable(out, k1, x);
    let k3 = statement_writer::word(out, k2, b") & trans(");
    let k4 = statement_writer::expression(out, k3, e);
    statement_writer::word(out, k4, b")) & !entry) B ")
}

// Puts the text of `AY A[((!def(X) & trans(A)) & !entry) B stmt(X := A)]` there.
fn write_copied(out: &mut [u8], x: u8, a: Operand) -> usize
    requires { ValidVariable x × ValidOperand a × (published_room ≤ length out.old) }
    ensures { Put out.old 0 (spell_condition (copied_before x a)) out.new result }
{
    let e = Expression::Single(a);
    let k1 = write_sure(out, x, e);
    let k2 = statement_writer::word(out, k1, b"stmt(");
    let k3 = statement_writer::statement(out, k2, Statement::Assign(x, e));
    statement_writer::word(out, k3, b")]")
}

// The same of `AY A[((!def(T) & trans(E)) & !entry) B (stmt(T := E) & trans(E))]`.
fn write_computed(out: &mut [u8], t: u8, e: Expression) -> usize
    requires { ValidVariable t × ValidExpression e × (published_room ≤ length out.old) }
    ensures { Put out.old 0 (spell_condition (computed_before t e)) out.new result }
{
    let k1 = write_sure(out, t, e);
    let k2 = statement_writer::word(out, k1, b"(stmt(");
    let k3 = statement_writer::statement(out, k2, Statement::Assign(t, e));
    let k4 = statement_writer::word(out, k3, b") & trans(");
    let k5 = statement_writer::expression(out, k4, e);
    statement_writer::word(out, k5, b"))]")
}

// Puts the text of the mark's published condition at the front of the lent bytes, and answers its length.
pub fn write_published(m: Mark, out: &mut [u8]) -> usize
    requires { ValidMark m × (published_room ≤ length out.old) }
    ensures { Put out.old 0 (spell_condition (published m)) out.new result }
{
    match m {
        Mark::Rm(_, x, _) => write_unneeded(out, x),
        Mark::Rpl(_, x, a) => write_copied(out, x, a),
        Mark::Cse(_, t, e) => write_computed(out, t, e),
    }
}
