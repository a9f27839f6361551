// Text for people: columns, and refusals in words. Each writer puts a text at a position of lent bytes, and answers the position after it.
#![tactic(auto)]

pub mod columns;
pub mod refusals;

// Why a text isn't written: the call is refused, and a refusal of so many bytes stands in its place; or too few bytes are lent.
#[derive(Clone, Copy)]
pub enum Failure {
    Refused(usize),
    NoRoom,
}
