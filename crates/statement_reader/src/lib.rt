// Readers of statements: each takes what stands at a position of a text, and answers the value and the position after it.
#![tactic(auto)]

ghost use Rattle.std.specs.Prelude.{◌≡◌, length, drop, ◌≤◌};
ghost use Rattle.tokens.specs.Parsing.{parsed, parsed_end};
ghost use Rattle.statement_reader.specs.Reading.{LineRead};
ghost use Rattle.statement_reader.specs.Parsing.{parse_operand, parse_operator, parse_expression, parse_read, parse_write, parse_skip, parse_assign, parse_branch, parse_assign_or_branch, parse_statement, parse_line};

use language::{Expression, Operand, Operator, Statement};

// A variable begins with `i`, and no constant does.
pub fn operand(s: &[u8], at: usize) -> Option<(Operand, usize)>
    ensures result_value { parsed s.now result ≡ parse_operand (drop at s.now) }
    ensures result_in_bounds { parsed_end result ≤ length s.now }
{
    if *s.get(at)? == b'i' {
        let (x, end) = tokens::variable(s, at)?;
        Some((Operand::Variable(x), end))
    } else {
        let (n, end) = tokens::constant(s, at)?;
        Some((Operand::Constant(n), end))
    }
}

fn operator(s: &[u8], at: usize) -> Option<(Operator, usize)>
    ensures result_value { parsed s.now result ≡ parse_operator (drop at s.now) }
    ensures result_in_bounds { parsed_end result ≤ length s.now }
{
    match *s.get(at)? {
        b'+' => Some((Operator::Add, at + 1)),
        b'-' => Some((Operator::Subtract, at + 1)),
        b'*' => Some((Operator::Multiply, at + 1)),
        b'<' => Some((Operator::Less, at + 1)),
        b'=' => Some((Operator::Equal, at + 1)),
        b'/' => Some((Operator::Divide, at + 1)),
        _ => None,
    }
}

#[tactic(auto, unfolding(crate::specs::Parsing::parse_expression))]
pub fn expression(s: &[u8], at: usize) -> Option<(Expression, usize)>
    ensures result_value { parsed s.now result ≡ parse_expression (drop at s.now) }
    ensures result_in_bounds { parsed_end result ≤ length s.now }
{
    let (a, end) = operand(s, at)?;
    match tokens::word(s, end, b" ") {
        None => Some((Expression::Single(a), end)),
        Some(at) => {
            let (o, at) = operator(s, at)?;
            let at = tokens::word(s, at, b" ")?;
            let (b, at) = operand(s, at)?;
            Some((Expression::Binary(a, o, b), at))
        }
    }
}

#[tactic(auto, unfolding(crate::specs::Parsing::parse_read))]
fn read_statement(s: &[u8], at: usize) -> Option<(Statement, usize)>
    ensures result_value { parsed s.now result ≡ parse_read (drop at s.now) }
    ensures result_in_bounds { parsed_end result ≤ length s.now }
{
    let at = tokens::word(s, at, b"read ")?;
    let (x, at) = tokens::variable(s, at)?;
    Some((Statement::Read(x), at))
}

#[tactic(auto, unfolding(crate::specs::Parsing::parse_write))]
fn write_statement(s: &[u8], at: usize) -> Option<(Statement, usize)>
    ensures result_value { parsed s.now result ≡ parse_write (drop at s.now) }
    ensures result_in_bounds { parsed_end result ≤ length s.now }
{
    let at = tokens::word(s, at, b"write ")?;
    let (x, at) = tokens::variable(s, at)?;
    Some((Statement::Write(x), at))
}

#[tactic(auto, unfolding(crate::specs::Parsing::parse_skip))]
fn skip_statement(s: &[u8], at: usize) -> Option<(Statement, usize)>
    ensures result_value { parsed s.now result ≡ parse_skip (drop at s.now) }
    ensures result_in_bounds { parsed_end result ≤ length s.now }
{
    let at = tokens::word(s, at, b"skip")?;
    Some((Statement::Skip, at))
}

#[tactic(auto, unfolding(crate::specs::Parsing::parse_assign))]
fn assignment(s: &[u8], at: usize) -> Option<(Statement, usize)>
    ensures result_value { parsed s.now result ≡ parse_assign (drop at s.now) }
    ensures result_in_bounds { parsed_end result ≤ length s.now }
{
    let (x, at) = tokens::variable(s, at)?;
    let at = tokens::word(s, at, b" := ")?;
    let (e, at) = expression(s, at)?;
    Some((Statement::Assign(x, e), at))
}

#[tactic(auto, unfolding(crate::specs::Parsing::parse_branch))]
fn branch(s: &[u8], at: usize) -> Option<(Statement, usize)>
    ensures result_value { parsed s.now result ≡ parse_branch (drop at s.now) }
    ensures result_in_bounds { parsed_end result ≤ length s.now }
{
    let at = tokens::word(s, at, b"if ")?;
    let (x, at) = tokens::variable(s, at)?;
    let at = tokens::word(s, at, b" goto ")?;
    let (n, at) = tokens::statement_number(s, at)?;
    let at = tokens::word(s, at, b" else ")?;
    let (m, at) = tokens::statement_number(s, at)?;
    Some((Statement::Branch(x, n, m), at))
}

// What begins with `i`: an assignment, or else a branch.
#[tactic(auto, unfolding(crate::specs::Parsing::parse_assign_or_branch))]
fn assignment_or_branch(s: &[u8], at: usize) -> Option<(Statement, usize)>
    ensures result_value { parsed s.now result ≡ parse_assign_or_branch (drop at s.now) }
    ensures result_in_bounds { parsed_end result ≤ length s.now }
{
    match assignment(s, at) {
        Some(found) => Some(found),
        None => branch(s, at),
    }
}

pub fn statement(s: &[u8], at: usize) -> Option<(Statement, usize)>
    ensures result_value { parsed s.now result ≡ parse_statement (drop at s.now) }
    ensures result_in_bounds { parsed_end result ≤ length s.now }
{
    match *s.get(at)? {
        b'r' => read_statement(s, at),
        b'w' => write_statement(s, at),
        b's' => skip_statement(s, at),
        b'i' => assignment_or_branch(s, at),
        _ => None,
    }
}

// A statement and its byte 10.
#[tactic(auto, unfolding(crate::specs::Parsing::parse_line))]
fn ended_statement(s: &[u8], at: usize) -> Option<(Statement, usize)>
    ensures result_value { parsed s.now result ≡ parse_line (drop at s.now) }
    ensures result_in_bounds { parsed_end result ≤ length s.now }
{
    let (e, at) = statement(s, at)?;
    let at = tokens::word(s, at, b"\n")?;
    Some((e, at))
}

// The line at the position: the valid statement that it spells and the position after its byte 10, or that it spells none.
pub fn line(s: &[u8], at: usize) -> Option<(Statement, usize)>
    ensures { LineRead s.now at result }
{
    ended_statement(s, at)
}
