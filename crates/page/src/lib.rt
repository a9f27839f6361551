// The view within a page of HTML.
#![tactic(auto)]

ghost use Rattle.std.specs.Prelude.{◌≡◌, length, ◌≤◌, ◌+◌};
ghost use Rattle.statement_writer.specs.Writing.{Put};
ghost use Rattle.view.specs.View.{view_room};
ghost use Rattle.page.specs.Page.{escape_byte, escape as escaped, Pages, page_room};

use desk::Failure;
use view::VIEW_ROOM;

// Every page's text has room in this many bytes.
pub const PAGE_ROOM: usize = VIEW_ROOM * 5;

fn escape_byte(out: &mut [u8], at: usize, b: u8) -> usize
    requires { at + length (escape_byte b) ≤ length out.old }
    ensures { Put out.old at (escape_byte b) out.new result }
{
    match b {
        b'&' => statement_writer::word(out, at, b"&amp;"),
        b'<' => statement_writer::word(out, at, b"&lt;"),
        b'>' => statement_writer::word(out, at, b"&gt;"),
        _ => statement_writer::byte(out, at, b),
    }
}

fn escape(out: &mut [u8], text: &[u8]) -> usize
    requires { length (escaped text.now) ≤ length out.old }
    ensures { Put out.old 0 (escaped text.now) out.new result }
{
    let mut to: usize = 0;
    for b in text {
        to = escape_byte(out, to, *b);
    }
    to
}

fn plain_buffer() -> [u8; VIEW_ROOM]
    ensures { length result ≡ view_room }
{
    [0; VIEW_ROOM]
}

// Room for every page.
pub fn buffer() -> [u8; PAGE_ROOM]
    ensures { length result ≡ page_room }
{
    [0; PAGE_ROOM]
}

// Puts what the viewer prints, escaped, at the front of the lent bytes.
pub fn page(program: &[u8], condition: &[u8], out: &mut [u8]) -> Result<usize, Failure>
    ensures { Pages program.now condition.now out.old out.new result }
{
    if out.len() < PAGE_ROOM {
        return Err(Failure::NoRoom);
    }
    let mut plain = plain_buffer();
    match view::view(program, condition, &mut plain) {
        Ok(n) => Ok(escape(out, &plain[..n])),
        Err(Failure::Refused(n)) => Err(Failure::Refused(escape(out, &plain[..n]))),
        Err(Failure::NoRoom) => Err(Failure::NoRoom),
    }
}
