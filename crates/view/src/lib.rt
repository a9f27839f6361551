// The viewer's output: a program and a condition in, the bytes that are printed out.
#![tactic(auto)]

ghost use Rattle.std.specs.Prelude.{◌≡◌, length, ltb, ◌≤◌, ◌<◌, ◌+◌, ◌/◌};
ghost use Rattle.base.specs.Bytes.{byte};
ghost use Rattle.statement_writer.specs.Writing.{Put};
ghost use Rattle.program.specs.Reading.{statements};
ghost use Rattle.condition.specs.Condition.{Condition};
ghost use Rattle.condition.specs.Texts.{Taken, most_parts};
ghost use Rattle.tabulate.specs.Tabulate.{table_words};
ghost use Rattle.desk.specs.Refusals.{refusal_room};
ghost use Rattle.view.specs.View.{part_line, part_lines, columns, head_row, row as rowText, rows, last_line, view_text, Views};
ghost use Rattle.base.specs.Pick.{pick};
ghost use Rattle.view.specs.Writing.{truth_in, byte_in, Placed, Tabled, ColumnsFit, HeadFits, RowFits, RowsFit, PartsFit, ViewFits, RefusalPut};

use condition::{END, FIELD, MOST_BYTES, MOST_PARTS, START};
use desk::Failure;
use desk::columns::{NUMBER_COLUMNS, STATEMENT_COLUMNS};
use language::Statement;
use program::Program;
use refusals::Numbered;
use tabulate::TABLE_WORDS;

// The columns of a part's number, and of a row before its marks.
pub const PART_COLUMNS: usize = 2;

pub const MARGIN: usize = NUMBER_COLUMNS + 2 + STATEMENT_COLUMNS + 2;
// A part, a row and the last line have room in this many bytes, and every output in this many.
const PART_ROOM: usize = PART_COLUMNS + 2 + MOST_BYTES + 1;

const ROW_ROOM: usize = MARGIN + MOST_PARTS + 3;

const LAST_ROOM: usize = 6 + PART_COLUMNS + 11 + NUMBER_COLUMNS + 7 + NUMBER_COLUMNS + 1;

pub const VIEW_ROOM: usize = MOST_PARTS * PART_ROOM + (program::MOST + 2) * ROW_ROOM + LAST_ROOM;

// What stands in the columns of the parts: digits of their numbers, or their marks at a place.
#[derive(Clone, Copy)]
enum Row {
    Tens,
    Units,
    Marks(usize),
}

fn tens_digit(n: u8) -> u8
    requires { n < 100 }
    ensures { result ≡ pick (ltb n 10) (byte " ") (byte "0" + n / 10) }
{
    if n < 10 { b' ' } else { b'0' + n / 10 }
}

// The byte of part k.
fn byte_in(table: &[u64], row: Row, k: usize) -> u8
    requires tabled { Tabled table.now (k + 1) }
    requires placed { Placed row }
    ensures { result ≡ byte_in table.now row k }
{
    match row {
        Row::Tens => tens_digit((k + 1) as u8),
        Row::Units => b'0' + ((k + 1) % 10) as u8,
        Row::Marks(s) => {
            if bits::contains(table, k * program::MOST + s) {
                return b'*';
            }
            b'.'
        }
    }
}

// A byte for each part, the last set off.
fn write_columns(out: &mut [u8], at: usize, table: &[u64], row: Row, n: usize) -> usize
    requires { ColumnsFit table.now row n at (length out.old) }
    ensures { Put out.old at (columns (byte_in table.now row) n) out.new result }
{
    let last = n - 1;
    let mut to = at;
    for k in 0..last {
        to = statement_writer::byte(out, to, byte_in(table, row, k));
    }
    let k1 = desk::columns::spaces(out, to, 2);
    statement_writer::byte(out, k1, byte_in(table, row, last))
}

// The digits of the parts' numbers, above the marks.
fn write_head(out: &mut [u8], at: usize, table: &[u64], row: Row, n: usize) -> usize
    requires { HeadFits table.now row n at (length out.old) }
    ensures { Put out.old at (head_row (byte_in table.now row) n) out.new result }
{
    let k1 = desk::columns::spaces(out, at, MARGIN);
    let k2 = write_columns(out, k1, table, row, n);
    statement_writer::byte(out, k2, 10)
}

// The statement at place s, with a mark for each part.
fn write_row(out: &mut [u8], at: usize, table: &[u64], n: usize, s: usize, e: Statement) -> usize
    requires { RowFits table.now n s e at (length out.old) }
    ensures { Put out.old at (rowText (truth_in table.now) n s e) out.new result }
{
    let k1 = desk::columns::number(out, at, NUMBER_COLUMNS, (s + 1) as u32);
    let k2 = desk::columns::spaces(out, k1, 2);
    let k3 = desk::columns::statement(out, k2, STATEMENT_COLUMNS, e);
    let k4 = desk::columns::spaces(out, k3, 2);
    let k5 = write_columns(out, k4, table, Row::Marks(s), n);
    statement_writer::byte(out, k5, 10)
}

fn write_rows(out: &mut [u8], at: usize, table: &[u64], n: usize, p: Program) -> usize
    requires { RowsFit p table.now n at (length out.old) }
    ensures { Put out.old at (rows (truth_in table.now) n (statements p)) out.new result }
{
    let entries = p.entries;
    let count = p.count;
    let mut to = at;
    for s in 0..count {
        let e = entries[s];
        let i = encoding::statement_of(e);
        to = write_row(out, to, table, n, s, i);
    }
    to
}

// Part k's number and its text.
fn write_part(out: &mut [u8], at: usize, k: usize, text: &[u8]) -> usize
    requires k_lt_most_parts { k < most_parts }
    requires text_in_bounds { at + length (part_line k text.now) ≤ length out.old }
    ensures { Put out.old at (part_line k text.now) out.new result }
{
    let k1 = desk::columns::number(out, at, PART_COLUMNS, (k + 1) as u32);
    let k2 = desk::columns::spaces(out, k1, 2);
    let k3 = statement_writer::word(out, k2, text);
    statement_writer::byte(out, k3, 10)
}

fn write_parts(out: &mut [u8], at: usize, text: &[u8], words: [u64; MOST_PARTS], n: usize) -> usize
    requires { PartsFit text.now words n at (length out.old) }
    ensures { (c : Condition) → Taken text.now c → Put out.old at (part_lines c) out.new result }
{
    let mut to = at;
    for k in 0..n {
        let w = words[k];
        let start = (w / START % FIELD) as usize;
        let end = (w / END) as usize;
        to = write_part(out, to, k, &text[start..end]);
    }
    to
}

fn write_last(out: &mut [u8], at: usize, n: u32, satisfied: u32, first: u32) -> usize
    requires { at + length (last_line n satisfied first) ≤ length out.old }
    ensures { Put out.old at (last_line n satisfied first) out.new result }
{
    let k1 = statement_writer::word(out, at, b"parts ");
    let k2 = statement_writer::number(out, k1, n);
    let k3 = statement_writer::word(out, k2, b" satisfied ");
    let k4 = statement_writer::number(out, k3, satisfied);
    let k5 = statement_writer::word(out, k4, b" first ");
    let k6 = statement_writer::number(out, k5, first);
    statement_writer::byte(out, k6, 10)
}

// The parts, the digits of their numbers, the statements and the counts, at the front of the lent bytes.
fn write_view(
    out: &mut [u8],
    text: &[u8],
    words: [u64; MOST_PARTS],
    table: &[u64],
    p: Program,
    n: u32,
    satisfied: u32,
    first: u32,
) -> usize
    requires { ViewFits text.now words table.now p n satisfied first (length out.old) }
    ensures { (c : Condition) → Taken text.now c → Put out.old 0 (view_text (statements p) c (truth_in table.now) satisfied first) out.new result }
{
    let count = n as usize;
    let k1 = write_parts(out, 0, text, words, count);
    let k2 = write_head(out, k1, table, Row::Tens, count);
    let k3 = write_head(out, k2, table, Row::Units, count);
    let k4 = write_rows(out, k3, table, count, p);
    write_last(out, k4, n, satisfied, first)
}

// The refusal n, with the line or the byte that it is about.
fn write_refusal(out: &mut [u8], n: u8, line: u32) -> usize
    requires { refusal_room ≤ length out.old }
    ensures { RefusalPut n line out.old out.new result }
{
    desk::refusals::refusal(out, 0, n, line)
}

fn table_buffer() -> [u64; TABLE_WORDS]
    ensures { length result ≡ table_words }
{
    [0; TABLE_WORDS]
}

// Puts what the viewer prints for the program's text and the condition's text at the front of the lent bytes. NoRoom: under VIEW_ROOM bytes
// are lent.
pub fn view(program: &[u8], condition: &[u8], out: &mut [u8]) -> Result<usize, Failure>
    ensures { Views program.now condition.now out.old out.new result }
{
    if out.len() < VIEW_ROOM {
        return Err(Failure::NoRoom);
    }
    let p = match program::read(program) {
        Ok(p) => p,
        Err(refusal) => {
            let line = blame::line_of(program, refusal);
            return Err(Failure::Refused(write_refusal(out, refusal.number(), line)));
        }
    };
    let c = match condition_reader::read(condition) {
        Ok(c) => c,
        Err(refusal) => {
            let byte = condition_blame::byte_of(condition);
            return Err(Failure::Refused(write_refusal(out, refusal.number(), byte)));
        }
    };
    let mut table = table_buffer();
    let mut flow = flow::blank();
    let summary = tabulate::fill(p, condition, c.words, c.count, &mut flow, &mut table);
    Ok(write_view(
        out,
        condition,
        c.words,
        &table,
        p,
        c.count,
        summary.satisfied,
        summary.first,
    ))
}
