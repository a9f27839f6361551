// Runs a program and its rewritten one side by side: compare_runs [PROGRAM [MARKS [START]]], files that default to `given`, `marks` and
// `start`. Prints what crate `side_by_side` makes of their bytes, piece by piece.
#![tactic(auto)]

ghost use Rattle.std.specs.Prelude.{◌≡◌};
ghost use Rattle.compare_runs.specs.Printing.{end_at, Printed};

use files::{REFUSAL, RESULT, UNREAD, UNWRITTEN};
use side_by_side::Stage;

// The status, where all is told; none, where more is to be printed.
fn end_at(stage: Stage) -> Option<u8>
    ensures { result ≡ end_at stage }
{
    match stage {
        Stage::Begin | Stage::Steps | Stage::Closing => None,
        Stage::Ended => Some(RESULT),
        Stage::Refused => Some(REFUSAL),
    }
}

// Prints all, and answers the status.
fn print(rt: &HostRuntime, program: &[u8], marks: &[u8], start: &[u8]) -> u8
    ensures { Printed program.now marks.now start.now result }
{
    let mut new = judge::text_buffer();
    let mut out = files::chunk();
    let mut from = side_by_side::first();
    loop {
        let piece = side_by_side::next(program, marks, start, from, &mut new, &mut out);
        let n = piece.bytes;
        if !files::write(rt, &out[..n]) {
            return UNWRITTEN;
        }
        let next = piece.next;
        let stage = next.stage;
        if let Some(status) = end_at(stage) {
            return status;
        }
        from = next;
    }
}

fn usage(rt: &HostRuntime) {
    files::tell(rt, b"usage: compare_runs [PROGRAM [MARKS [START]]]\n");
}

// Reads the files and prints. Answers the status.
fn compare(rt: &HostRuntime) -> u8 {
    if 4 < files::arg_count(rt) {
        usage(rt);
        return UNREAD;
    }
    let mut given = files::room();
    let Ok(k) = files::read(rt, 1, b"given", &mut given) else {
        return UNREAD;
    };
    let mut marks = files::room();
    let Ok(m) = files::read(rt, 2, b"marks", &mut marks) else {
        return UNREAD;
    };
    let mut start = files::room();
    let Ok(n) = files::read(rt, 3, b"start", &mut start) else {
        return UNREAD;
    };
    print(rt, &given[..k], &marks[..m], &start[..n])
}

fn main(rt: HostRuntime) {
    files::status(&rt, compare(&rt));
}
