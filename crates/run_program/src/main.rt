// Runs a program from a start: run_program [PROGRAM [START [trace]]], files that default to `given` and `start`. Prints the outcome or the
// refusal in words, and with the word `trace` a line for each step before it.
#![tactic(auto)]

use transcript::Stage;

// An argument is read into so many bytes: a longer one isn't the word.
const WORD_ROOM: usize = 16;

// Writes all pieces, and answers the status.
fn print(rt: &HostRuntime, program: &[u8], start: &[u8], trace: bool) -> u8 {
    let mut out = files::chunk();
    let mut at = transcript::first();
    // Each piece tells where the next one goes on, or that it is the last.
    while !transcript::over(at) {
        let piece = transcript::next(program, start, trace, at, &mut out);
        let n = piece.bytes;
        if !files::write(rt, &out[..n]) {
            return files::UNWRITTEN;
        }
        at = piece.next;
    }
    if matches!(at.stage, Stage::Refused) {
        files::REFUSAL
    } else {
        files::RESULT
    }
}

// Whether the third argument is `trace`.
fn traced(rt: &HostRuntime) -> bool {
    let mut word = [0u8; WORD_ROOM];
    let n = files::arg(rt, 3, &mut word);
    &word[..n] == b"trace".as_slice()
}

// Four arguments, its own name among them, end with the word; more are too many.
fn understood(rt: &HostRuntime) -> bool {
    let n = files::arg_count(rt);
    if n < 4 {
        return true;
    }
    if 4 < n {
        return false;
    }
    traced(rt)
}

// Reads both files and prints; where one can't be read, nothing is printed.
fn run(rt: &HostRuntime) -> u8 {
    let mut given = files::room();
    let Ok(m) = files::read(rt, 1, b"given", &mut given) else {
        return files::UNREAD;
    };
    let mut from = files::room();
    let Ok(n) = files::read(rt, 2, b"start", &mut from) else {
        return files::UNREAD;
    };
    print(rt, &given[..m], &from[..n], traced(rt))
}

fn usage(rt: &HostRuntime) -> u8 {
    files::tell(rt, b"usage: run_program [PROGRAM [START [trace]]]\n");
    files::UNREAD
}

fn main(rt: HostRuntime) {
    if understood(&rt) {
        files::status(&rt, run(&rt));
    } else {
        files::status(&rt, usage(&rt));
    }
}
