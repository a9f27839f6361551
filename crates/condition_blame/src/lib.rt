// Where the reading of a condition's text stops.
#![tactic(auto)]

ghost use Rattle.std.specs.Prelude.{◌≡◌, List, ◌++◌, ℕ, ◌+◌, ◌*◌, ◌^◌, ◌≤◌, length, drop, position, ◌==◌, IfSome, IfNone};
ghost use Rattle.condition.specs.Texts.{most_bytes};
ghost use Rattle.viable.specs.Begins.{ByteTold};
ghost use Rattle.viable.specs.Grammar.{nonzero, class_of, bound_of, expand, more as moreOf, opened as openedAt, expanded, step, word, none};
ghost use Rattle.viable.specs.Grammar.Reached.{at};
ghost use Rattle.condition_blame.specs.Blame.{Blamed};
ghost use Rattle.condition_blame.specs.Search.{table as tableText, line, row_in, reached_in, growth, room, Near};

use condition::MOST_BYTES;

// A byte that is read adds at most this many items to what is expected.
const GROWTH: usize = 16;

// Room for all that may be expected.
const ROOM: usize = GROWTH * MOST_BYTES + 1;

// Where the reading stands: the items from `top` on are expected, after digits that may go on a number. It is `value` so far, and is to stay
// below `bound`; 0 is no number.
#[derive(Clone, Copy)]
pub struct State {
    pub top: usize,
    pub bound: u64,
    pub value: u64,
}

// Where the text's first byte 10 stands.
fn line_end(text: &[u8]) -> Option<usize>
    ensures { result ≡ position (λ c. c == 10) text.now }
{
    text.iter().position(|c| *c == b'\n')
}

// What stands before it.
fn first_line(text: &[u8]) -> &[u8]
    ensures { result.now ≡ line text.now }
{
    let end = line_end(text).unwrap_or(text.len());
    &text[..end]
}

// The items of the row of item i for the byte c: what stands behind its two first bytes.
fn find(table: &[u8], i: u8, c: u8) -> Option<&[u8]>
    ensures some { IfSome result (λ r. row_in table.now i c ≡ word r.now) }
    ensures absent { IfNone result (row_in table.now i c ≡ none) }
{
    for k in 0..table.len() {
        if table[k..].starts_with(&[b'\n', i, c]) {
            return Some(first_line(&table[k + 3..]));
        }
    }
    None
}

// The numbers that an item may hold lie below this.
#[tactic(auto, unfolding(viable::specs::Grammar::bound_of))]
fn bound_of(i: u8) -> u64
    ensures { result ≡ bound_of i }
{
    match i {
        b'D' | b'I' => language::VARIABLES as u64,
        b'M' => 2147483649,
        _ => 2147483648,
    }
}

// Whether the digit c goes on the number n below the bound b.
#[tactic(auto, unfolding(viable::specs::Grammar::more))]
fn more(b: u64, n: u64, c: u8) -> bool
    requires { n ≤ 2 ^ 32 }
    ensures { result ≡ moreOf b n c }
{
    if !c.is_ascii_digit() {
        return false;
    }
    (0 < n) & (n * 10 + ((c - b'0') as u64) < b)
}

// Whether c is one of the digits 1 to 9.
fn is_nonzero(c: u8) -> bool
    ensures { result ≡ nonzero c }
{
    (b'1'..=b'9').contains(&c)
}

// The byte that stands for c in the table.
fn class_of(c: u8) -> u8
    ensures { result ≡ class_of c }
{
    if is_nonzero(c) { b'1' } else { c }
}

// Where the reading stands after the first byte c of item i, from the top on.
fn opened(top: usize, i: u8, c: u8) -> State
    ensures top_value { (result.top ≡ top) × (result.bound ≤ 2 ^ 32) × (result.value ≤ 2 ^ 32) }
    ensures by_index { (st : List ℕ) → at result.bound result.value st ≡ openedAt i c st }
{
    if is_nonzero(c) {
        return State {
            top,
            bound: bound_of(i),
            value: (c - b'0') as u64,
        };
    }
    State {
        top,
        bound: 0,
        value: 0,
    }
}

// The items that follow the byte c of item i, a capital letter, come before those from `top` on.
fn row(stack: &mut [u8], top: usize, table: &[u8], i: u8, c: u8) -> Option<State>
    requires table_value { table.now ≡ tableText }
    requires growth_bound { (growth + 1 ≤ top) × (top ≤ length stack.old) }
    ensures result_after { reached_in stack.new result ≡ expanded (expand i c) i c (drop top stack.old) }
    ensures near { Near (growth + 1) top top result }
{
    let items = find(table, i, class_of(c))?;
    let first = top - items.len();
    stack[first..top].copy_from_slice(items);
    Some(opened(first, i, c))
}

// One byte more: the items from the top on change, or nothing that may stand there begins with it.
fn advance(stack: &mut [u8], table: &[u8], s: State, c: u8) -> Option<State>
    requires table_value { table.now ≡ tableText }
    requires growth_le_top { (growth ≤ s.top) × (s.top ≤ length stack.old) × (s.bound ≤ 2 ^ 32) × (s.value ≤ 2 ^ 32) }
    ensures result_after { reached_in stack.new result ≡ step s.bound s.value (drop s.top stack.old) c }
    ensures near { Near growth s.top (length stack.old) result }
{
    let top = s.top;
    let bound = s.bound;
    let value = s.value;
    if more(bound, value, c) {
        return Some(State {
            top,
            bound,
            value: value * 10 + ((c - b'0') as u64),
        });
    }
    if stack.len() <= top {
        return None;
    }
    let i = stack[top];
    if (b'A' <= i) & (i <= b'Z') {
        return row(stack, top + 1, table, i, c);
    }
    if i == c {
        return Some(State {
            top: top + 1,
            bound: 0,
            value: 0,
        });
    }
    None
}

// As many items as there is room for.
fn blank() -> [u8; ROOM]
    ensures { length result ≡ room }
{
    [0; ROOM]
}

// The byte at which the reading of the text stops, counted from 1; 0 where it spells a condition.
fn stop(text: &[u8], table: &[u8]) -> u32
    requires text_len_bound { length text.now ≤ most_bytes }
    requires table_value { table.now ≡ tableText }
    ensures { ByteTold text.now result }
{
    let mut stack = blank();
    stack[ROOM - 1] = b'C';
    let mut s = State {
        top: ROOM - 1,
        bound: 0,
        value: 0,
    };
    for at in 0..text.len() {
        let Some(next) = advance(&mut stack, table, s, text[at]) else {
            return (at + 1) as u32;
        };
        s = next;
    }
    let top = s.top;
    if top < ROOM {
        return (text.len() + 1) as u32;
    }
    0
}

// The byte of the text that its refusal is about, counted from 1; 0 where it is about none. The table is that of the definitions, each row
// after a byte 10.
pub fn byte_of(text: &[u8]) -> u32
    ensures { Blamed text.now result }
{
    if MOST_BYTES < text.len() {
        return 0;
    }
    stop(
        text,
        b"\nC!C\nCEQ\nCAQ\nC(CJC)\nCtrT\nCfalse\nCeZ\nCnode(N)\nCstmt(S\nCdef(V)\nCuse(V)\nQX C\nQF C\nQG C\nQY C\nQR C\nQM C\nQ[CKC]\nJ H\nH& \nH| \nK L\nLU \nLW \nLS \nLB \nTue\nTans(X\nZntry\nZxit\nSread V)\nSwrite V)\nSskip)\nSiI\nIf V goto N else N)\nI0 := X\nI1 := X\nXiDR\nX-MR\nX0R\nX1R\nR)\nR O\nO+ A)\nO- A)\nO* A)\nO< A)\nO= A)\nO/ A)\nAiD\nA-M\nA0\nA1\nM1\nViD\nD0\nD1\nN0\nN1",
    )
}
