// Shows at which statements of a program the parts of a condition are true, as `view` says. The arguments name the files of the program
// and of the condition, `given` and `condition` where they are left out; a byte 10 at the condition's end is dropped. With `--html` before
// them the same text is printed within a page.
#![tactic(auto)]

mod frame;

ghost use Rattle.std.specs.Prelude.{length, ◌≤◌};

use desk::Failure;
use files::{REFUSAL, RESULT, UNREAD, UNWRITTEN};
use view::VIEW_ROOM;

// The first argument is read into so many bytes: a longer one isn't the word.
const WORD_ROOM: usize = 16;

// The length of the text without a byte 10 at its end.
fn without_end(text: &[u8]) -> usize
    ensures { result ≤ length text.now }
{
    text.strip_suffix(b"\n").unwrap_or(text).len()
}

fn print(rt: &HostRuntime, program: &[u8], condition: &[u8]) -> u8 {
    let end = without_end(condition);
    let mut out = [0u8; VIEW_ROOM];
    match view::view(program, &condition[..end], &mut out) {
        Ok(n) => files::print(rt, &out[..n], RESULT),
        Err(Failure::Refused(n)) => files::print(rt, &out[..n], REFUSAL),
        Err(Failure::NoRoom) => UNWRITTEN,
    }
}

// The text within the page.
fn print_around(rt: &HostRuntime, text: &[u8], status: u8) -> u8 {
    if frame::print_head(rt) && files::write(rt, text) && frame::print_tail(rt) {
        return status;
    }
    UNWRITTEN
}

fn print_page(rt: &HostRuntime, program: &[u8], condition: &[u8]) -> u8 {
    let end = without_end(condition);
    let mut out = page::buffer();
    match page::page(program, &condition[..end], &mut out) {
        Ok(n) => print_around(rt, &out[..n], RESULT),
        Err(Failure::Refused(n)) => print_around(rt, &out[..n], REFUSAL),
        Err(Failure::NoRoom) => UNWRITTEN,
    }
}

fn show(rt: &HostRuntime, page: bool, program: &[u8], condition: &[u8]) -> u8 {
    if page {
        return print_page(rt, program, condition);
    }
    print(rt, program, condition)
}

// Whether the first argument is `--html`.
fn asks_page(rt: &HostRuntime) -> bool {
    let mut first = [0u8; WORD_ROOM];
    let n = files::arg(rt, 1, &mut first);
    let Some(k) = tokens::word(&first[..n], 0, b"--html") else {
        return false;
    };
    k == n
}

fn usage(rt: &HostRuntime) {
    files::tell(
        rt,
        b"usage: view_condition [--html] [PROGRAM [CONDITION]]\n",
    );
}

// The files are named by the arguments from `first` on. Answers the status.
fn view_files(rt: &HostRuntime, page: bool, first: usize) -> u8
    requires { first ≤ 2 }
{
    if first + 2 < files::arg_count(rt) {
        usage(rt);
        return UNREAD;
    }
    let mut given = files::room();
    let Ok(m) = files::read(rt, first, b"given", &mut given) else {
        return UNREAD;
    };
    let mut text = files::room();
    let Ok(n) = files::read(rt, first + 1, b"condition", &mut text) else {
        return UNREAD;
    };
    show(rt, page, &given[..m], &text[..n])
}

fn main(rt: HostRuntime) {
    if asks_page(&rt) {
        files::status(&rt, view_files(&rt, true, 2));
        return;
    }
    files::status(&rt, view_files(&rt, false, 1));
}
