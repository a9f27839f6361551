// A program's arguments, the files that they name, its standard output and its status. What can't be read or written is told in a line on
// standard error.
#![tactic(auto)]

ghost use Rattle.std.specs.Prelude.{◌≡◌, ◌≤◌, length};
ghost use Rattle.std.specs.Io.{WritesAtMost};
ghost use Rattle.io.specs.Counts.{IsPrefixLen};
ghost use Rattle.files.specs.Files.{chunk_room, file_room, Opens, Ends, Reads, Settles};

use std::env::{Env, FillError};
use std::fmt::InlineText;
use std::fs::File;
use std::io::{Error, ErrorKind, Print, Read, Write};
use std::os::fd::AsRawFd;

// A file has at most 65,535 bytes; one byte more is lent, by which a longer one is told.
const FILE_ROOM: usize = 65536;
// Pieces of what is printed are written from this many bytes.
pub const CHUNK: usize = 16384;
// What a program tells of how it went: a result, a refusal, usage or a file that can't be read, output that wasn't written. Numbers, since
// `print` and `status` take any.
pub const RESULT: u8 = 0;

pub const REFUSAL: u8 = 1;

pub const UNREAD: u8 = 2;

pub const UNWRITTEN: u8 = 3;
// The status goes to this descriptor, where the first argument is `--status`.
const STATUS_FILENO: i32 = 3;
// Standard output, by the system's name for it.
const OUTPUT: &str = "/dev/stdout";
// What the system says of a descriptor that isn't open.
const NOT_OPEN: i32 = 9;

// Missing: the file can't be opened. Unread: it can't be read to its end, or is longer than 65,535 bytes.
#[derive(Clone, Copy)]
pub enum FileError {
    Missing,
    Unread,
}

pub fn chunk() -> [u8; CHUNK]
    ensures { length result ≡ chunk_room }
{
    [0; CHUNK]
}

// The bytes that are lent for a file.
pub fn room() -> [u8; FILE_ROOM]
    ensures { length result ≡ file_room }
{
    [0; FILE_ROOM]
}

// Writes the text to standard error. What can't be written there is told nowhere.
pub fn tell(rt: &HostRuntime, text: &[u8]) {
    let _ = rt.stderr().write_all(text);
}

// Tells what failed, a colon and the system's words for why: those of the error without its number.
fn fail(rt: &HostRuntime, what: &[u8], error: Error) {
    let words = InlineText::<128>::of(error);
    let number = match error.raw_os_error() {
        Some(code) => InlineText::<32>::of(format_args!(" (os error {code})")),
        None => InlineText::<32>::new(),
    };
    let all = words.as_str();
    let why = all.strip_suffix(number.as_str()).unwrap_or(all);
    tell(rt, what);
    tell(rt, b": ");
    tell(rt, why.as_bytes());
    tell(rt, b"\n");
}

// Whether the first argument is `--status`.
fn asks_status(rt: &HostRuntime) -> bool {
    let mut first = io::buffer();
    let Ok(n) = rt.arg(1, &mut first) else {
        return false;
    };
    &first[..n] == b"--status".as_slice()
}

// How many arguments stand before the program's own.
fn skipped(rt: &HostRuntime) -> usize
    ensures { result ≤ 1 }
{
    if asks_status(rt) { 1 } else { 0 }
}

// How many arguments the program was started with, its name among them. The first that is missing ends them.
fn all_arguments(rt: &HostRuntime) -> usize {
    let mut first = [0u8; 1];
    for i in 0..usize::MAX {
        if let Err(FillError::NotPresent) = rt.arg(i, &mut first) {
            return i;
        }
    }
    usize::MAX
}

// How many arguments the program has, its name among them and `--status` not.
pub fn arg_count(rt: &HostRuntime) -> usize {
    all_arguments(rt).saturating_sub(skipped(rt))
}

// Puts argument i at the front of the lent bytes and answers its length, or that it is missing or has no room.
fn argument(rt: &HostRuntime, i: usize, buffer: &mut [u8]) -> Result<usize, FillError>
    ensures { WritesAtMost result buffer.new }
{
    let k = skipped(rt);
    if all_arguments(rt) <= i {
        return rt.arg(i, buffer);
    }
    rt.arg(i + k, buffer)
}

// Puts argument i at the front of the lent bytes and answers its length; 0 where it is missing or has no room.
pub fn arg(rt: &HostRuntime, i: usize, buffer: &mut [u8]) -> usize
    ensures { IsPrefixLen result buffer.new }
{
    argument(rt, i, buffer).unwrap_or(0)
}

// std takes names that are UTF-8.
fn try_open(rt: &HostRuntime, name: &[u8]) -> Result<File, Error> {
    match std::str::from_utf8(name) {
        Ok(path) => File::open(rt, path),
        Err(_) => Err(Error::new(ErrorKind::InvalidInput, "its name isn't UTF-8")),
    }
}

fn open(rt: &HostRuntime, name: &[u8]) -> Result<File, Error>
    ensures { Opens result }
{
    let file = try_open(rt, name)?;
    if file.as_raw_fd() < 0 {
        return Err(Error::from_raw_os_error(NOT_OPEN));
    }
    Ok(file)
}

// Reads to the file's end and answers how many bytes there were; none, where the file is as long as the lent bytes, or longer.
fn read_to_end(file: &mut File, buffer: &mut [u8]) -> Result<Option<usize>, Error>
    ensures { Ends buffer.old buffer.new result }
{
    let mut done: usize = 0;
    // One read takes several bytes, so that no `for` counts them.
    while done < buffer.len() {
        let n = file.read(&mut buffer[done..])?;
        if n == 0 {
            return Ok(Some(done));
        }
        done += n;
    }
    Ok(None)
}

// Reads an open file, and tells why it can't be read.
fn read_open(
    rt: &HostRuntime,
    file: &mut File,
    name: &[u8],
    buffer: &mut [u8],
) -> Result<usize, FileError>
    ensures { Reads buffer.old buffer.new result }
{
    if buffer.len() < FILE_ROOM {
        tell(rt, name);
        tell(rt, b" can't be read: no room for 65,535 bytes\n");
        return Err(FileError::Unread);
    }
    match read_to_end(file, &mut buffer[..FILE_ROOM]) {
        Ok(Some(n)) => Ok(n),
        Ok(None) => {
            tell(rt, name);
            tell(rt, b" can't be read: over 65,535 bytes\n");
            Err(FileError::Unread)
        }
        Err(e) => {
            tell(rt, name);
            fail(rt, b" can't be read", e);
            Err(FileError::Unread)
        }
    }
}

// Reads the file with this name; where it can't be opened, its name, these words and why are told. The file is closed.
fn read_named(
    rt: &HostRuntime,
    name: &[u8],
    words: &[u8],
    buffer: &mut [u8],
) -> Result<usize, FileError>
    ensures { Reads buffer.old buffer.new result }
{
    match open(rt, name) {
        Ok(mut file) => read_open(rt, &mut file, name, buffer),
        Err(e) => {
            tell(rt, name);
            fail(rt, words, e);
            Err(FileError::Missing)
        }
    }
}

// The same of the file that argument i names, or of the default where the argument is missing.
fn read_argument(
    rt: &HostRuntime,
    i: usize,
    default: &[u8],
    words: &[u8],
    buffer: &mut [u8],
) -> Result<usize, FileError>
    ensures { Reads buffer.old buffer.new result }
{
    if arg_count(rt) <= i {
        return read_named(rt, default, words, buffer);
    }
    let mut name = io::buffer();
    match argument(rt, i, &mut name) {
        Ok(n) => read_named(rt, &name[..n], words, buffer),
        Err(FillError::TooLong) => {
            tell(rt, b"a file's name: File name too long\n");
            Err(FileError::Missing)
        }
        Err(FillError::NotPresent) => {
            tell(rt, b"a file's name: Invalid argument\n");
            Err(FileError::Missing)
        }
    }
}

// Puts the bytes of the file that argument i names, or of the default where the argument is missing, at the front of the lent ones. A line
// on standard error tells why there are none.
pub fn read(
    rt: &HostRuntime,
    i: usize,
    default: &[u8],
    buffer: &mut [u8],
) -> Result<usize, FileError>
    ensures { Reads buffer.old buffer.new result }
{
    read_argument(rt, i, default, b" can't be opened", buffer)
}

// The same for a program that takes a file that can't be opened for an empty one, and says so.
pub fn read_or_empty(
    rt: &HostRuntime,
    i: usize,
    default: &[u8],
    buffer: &mut [u8],
) -> Result<usize, FileError>
    ensures { Reads buffer.old buffer.new result }
{
    read_argument(rt, i, default, b" is read as empty", buffer)
}

// Writes the text to standard output. Where not all is written, a line on standard error tells why.
pub fn write(rt: &HostRuntime, text: &[u8]) -> bool {
    match rt.write_all(text) {
        Ok(()) => true,
        Err(e) => {
            fail(rt, b"standard output", e);
            false
        }
    }
}

// Writes the text to standard output, and answers this status, or that of output that wasn't written.
pub fn print(rt: &HostRuntime, text: &[u8], status: u8) -> u8
    ensures { Settles status result }
{
    if write(rt, text) {
        return status;
    }
    UNWRITTEN
}

// Waits until the device has what was written, where standard output is a file: an error that comes late is told by that.
fn synced(rt: &HostRuntime) -> Result<(), Error> {
    let Ok(about) = std::fs::metadata(rt, OUTPUT) else {
        return Ok(());
    };
    if !about.is_file() {
        return Ok(());
    }
    let Ok(file) = File::options().append(true).open(rt, OUTPUT) else {
        return Ok(());
    };
    file.sync_all()
}

// Flushes standard output, and waits.
fn flushed(rt: &HostRuntime) -> Result<(), Error> {
    rt.stdout().flush()?;
    synced(rt)
}

// The status after standard output is flushed, which tells what was lost late.
fn settled(rt: &HostRuntime, n: u8) -> u8
    ensures { Settles n result }
{
    if n == UNWRITTEN {
        return n;
    }
    match flushed(rt) {
        Ok(()) => n,
        Err(e) => {
            fail(rt, b"standard output", e);
            UNWRITTEN
        }
    }
}

// Flushes standard output and tells the status, a program's last call: one digit and byte 10.
pub fn status(rt: &HostRuntime, n: u8) {
    let told = settled(rt, n);
    if asks_status(rt) {
        io::write_all(STATUS_FILENO, &[b'0' + told % 10, b'\n']);
    }
}
