// The readers of atoms: each takes what stands at a position of a text, and answers the value and the position after it.
#![tactic(auto)]

ghost use Rattle.std.specs.Prelude.{◌≡◌, ◌≤◌, ◌<◌, length, drop};
ghost use Rattle.tokens.specs.Parsing.{parsed, parsed_end};
ghost use Rattle.atom_reader.specs.Parsing.{parse_ended, parse_node, parse_stmt, parse_def, parse_use, parse_trans, parse_true_or_trans, parse_entry_or_exit, parse_atom};

use condition::Atom;

// The value a, which the word w ends.
#[tactic(auto, unfolding(crate::specs::Parsing::parse_ended))]
pub fn ended<A: Drop>(s: &[u8], at: usize, w: &[u8], a: A) -> Option<(A, usize)>
    ensures result_value { parsed s.now result ≡ parse_ended w.now a (drop at s.now) }
    ensures result_in_bounds { 0 < length w.now → parsed_end result ≤ length s.now }
{
    let at = tokens::word(s, at, w)?;
    Some((a, at))
}

// `node(n)`.
#[tactic(auto, unfolding(crate::specs::Parsing::parse_node))]
fn node(s: &[u8], at: usize) -> Option<(Atom, usize)>
    ensures result_value { parsed s.now result ≡ parse_node (drop at s.now) }
    ensures result_in_bounds { parsed_end result ≤ length s.now }
{
    let at = tokens::word(s, at, b"node(")?;
    let (n, at) = tokens::statement_number(s, at)?;
    ended(s, at, b")", Atom::Node(n))
}

// `stmt(I)`.
#[tactic(auto, unfolding(crate::specs::Parsing::parse_stmt))]
fn stmt(s: &[u8], at: usize) -> Option<(Atom, usize)>
    ensures result_value { parsed s.now result ≡ parse_stmt (drop at s.now) }
    ensures result_in_bounds { parsed_end result ≤ length s.now }
{
    let at = tokens::word(s, at, b"stmt(")?;
    let (i, at) = statement_reader::statement(s, at)?;
    ended(s, at, b")", Atom::Stmt(i))
}

// `def(X)`.
#[tactic(auto, unfolding(crate::specs::Parsing::parse_def))]
fn def(s: &[u8], at: usize) -> Option<(Atom, usize)>
    ensures result_value { parsed s.now result ≡ parse_def (drop at s.now) }
    ensures result_in_bounds { parsed_end result ≤ length s.now }
{
    let at = tokens::word(s, at, b"def(")?;
    let (x, at) = tokens::variable(s, at)?;
    ended(s, at, b")", Atom::Def(x))
}

// `use(X)`.
#[tactic(auto, unfolding(crate::specs::Parsing::parse_use))]
fn used(s: &[u8], at: usize) -> Option<(Atom, usize)>
    ensures result_value { parsed s.now result ≡ parse_use (drop at s.now) }
    ensures result_in_bounds { parsed_end result ≤ length s.now }
{
    let at = tokens::word(s, at, b"use(")?;
    let (x, at) = tokens::variable(s, at)?;
    ended(s, at, b")", Atom::Use(x))
}

// `trans(E)`.
#[tactic(auto, unfolding(crate::specs::Parsing::parse_trans))]
fn trans(s: &[u8], at: usize) -> Option<(Atom, usize)>
    ensures result_value { parsed s.now result ≡ parse_trans (drop at s.now) }
    ensures result_in_bounds { parsed_end result ≤ length s.now }
{
    let at = tokens::word(s, at, b"trans(")?;
    let (e, at) = statement_reader::expression(s, at)?;
    ended(s, at, b")", Atom::Trans(e))
}

// `true` or `trans(E)`.
#[tactic(auto, unfolding(crate::specs::Parsing::parse_true_or_trans))]
fn true_or_trans(s: &[u8], at: usize) -> Option<(Atom, usize)>
    ensures result_value { parsed s.now result ≡ parse_true_or_trans (drop at s.now) }
    ensures result_in_bounds { parsed_end result ≤ length s.now }
{
    match tokens::word(s, at, b"true") {
        Some(at) => Some((Atom::True, at)),
        None => trans(s, at),
    }
}

// `entry` or `exit`.
#[tactic(auto, unfolding(crate::specs::Parsing::parse_entry_or_exit))]
fn entry_or_exit(s: &[u8], at: usize) -> Option<(Atom, usize)>
    ensures result_value { parsed s.now result ≡ parse_entry_or_exit (drop at s.now) }
    ensures result_in_bounds { parsed_end result ≤ length s.now }
{
    match tokens::word(s, at, b"entry") {
        Some(at) => Some((Atom::Entry, at)),
        None => ended(s, at, b"exit", Atom::Exit),
    }
}

pub fn atom(s: &[u8], at: usize) -> Option<(Atom, usize)>
    ensures result_value { parsed s.now result ≡ parse_atom (drop at s.now) }
    ensures result_in_bounds { parsed_end result ≤ length s.now }
{
    match *s.get(at)? {
        b't' => true_or_trans(s, at),
        b'f' => ended(s, at, b"false", Atom::False),
        b'e' => entry_or_exit(s, at),
        b'n' => node(s, at),
        b's' => stmt(s, at),
        b'd' => def(s, at),
        b'u' => used(s, at),
        _ => None,
    }
}
