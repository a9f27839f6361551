// Document 01's check program: reads a program from the file `given` and a list of marks from `marks`, or from those that its arguments
// name, and prints what `report` says of them; the words of a refusal go to standard error. A file that can't be opened reads as empty, and
// the status tells it. One that can't be read to its end, or has over 65,535 bytes, leaves nothing to print.
#![tactic(auto)]

use desk::refusals::REFUSAL_ROOM;
use files::{FileError, REFUSAL, RESULT, UNREAD, UNWRITTEN};
use report::{REPORT_ROOM, Reported, Worded};

fn print_words(rt: &HostRuntime, given: &[u8], marks: &[u8]) {
    let mut out = [0u8; REFUSAL_ROOM];
    if let Worded::Written(n) = report::words(given, marks, &mut out) {
        files::tell(rt, &out[..n]);
    }
}

// The status of a report or a refusal, unless a file was missing, which is worse.
fn worse(status: u8, missing: bool) -> u8 {
    if missing { UNREAD } else { status }
}

// Prints what is said of the program and the list, and answers the status.
fn print(rt: &HostRuntime, given: &[u8], marks: &[u8], missing: bool) -> u8 {
    let mut out = [0u8; REPORT_ROOM];
    match report::report(given, marks, &mut out) {
        Reported::Written(n) => files::print(rt, &out[..n], worse(RESULT, missing)),
        Reported::Refused(n) => {
            let status = files::print(rt, &out[..n], worse(REFUSAL, missing));
            print_words(rt, given, marks);
            status
        }
        Reported::NoRoom => UNWRITTEN,
    }
}

// Reads the list, and answers the status.
fn check_marks(rt: &HostRuntime, given: &[u8], missing: bool) -> u8 {
    let mut marks = files::room();
    match files::read_or_empty(rt, 2, b"marks", &mut marks) {
        Ok(n) => print(rt, given, &marks[..n], missing),
        Err(FileError::Missing) => print(rt, given, b"", true),
        Err(FileError::Unread) => UNREAD,
    }
}

// Reads the program, then the list.
fn check(rt: &HostRuntime) -> u8 {
    let mut given = files::room();
    match files::read_or_empty(rt, 1, b"given", &mut given) {
        Ok(m) => check_marks(rt, &given[..m], false),
        Err(FileError::Missing) => check_marks(rt, b"", true),
        Err(FileError::Unread) => UNREAD,
    }
}

fn usage(rt: &HostRuntime) {
    files::tell(rt, b"usage: check_rewrites [PROGRAM [MARKS]]\n");
}

fn main(rt: HostRuntime) {
    if 3 < files::arg_count(&rt) {
        usage(&rt);
        files::status(&rt, UNREAD);
        return;
    }
    files::status(&rt, check(&rt));
}
