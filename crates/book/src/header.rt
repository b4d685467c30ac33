// The header, 12 bytes: format, routines, lines, two offsets, the book's length. Tests 1 to 5.
ghost use Rattle.std.specs.Prelude.{◌≡◌, ◌≤◌, length};
ghost use Rattle.scope.specs.Book.{header_bytes, counts_wrong, offsets_wrong, header_test, header_verdict};
ghost use Rattle.book.specs.Told.{verdict_told};
ghost use Rattle.book.specs.Asked.{HeaderOf, CountsOf};

use super::numbers::two_byte;
use super::refusals::{Name, Refusal};

pub(crate) const HEADER_BYTES: usize = 12;

pub(crate) const ENTRY_BYTES: usize = 4;

pub const LINE_BYTES: usize = 4;

pub(crate) const THE_FORMAT: u16 = 1;

pub const MOST_ROUTINES: u16 = 32;

pub const MOST_LINES: u16 = 4096;

// How many routines and lines a book has.
#[derive(Clone, Copy, Debug, PartialEq, Eq)]
pub struct Counts {
    pub routines: u16,
    pub lines: u16,
}

// The six numbers of the header. `entries` and `body` are the offsets of the routine table and of the line table.
#[derive(Clone, Copy, Debug, PartialEq, Eq)]
pub(crate) struct Header {
    pub(crate) format: u16,
    pub(crate) routines: u16,
    pub(crate) lines: u16,
    pub(crate) entries: u16,
    pub(crate) body: u16,
    pub(crate) stated: u16,
}

// 3 COUNTS: R is 0 or above 32, or L above 4,096.
fn counts_wrong(routines: u16, lines: u16) -> bool
    ensures { result ≡ counts_wrong routines lines }
{
    if routines == 0 {
        return true;
    }
    if MOST_ROUTINES < routines {
        return true;
    }
    MOST_LINES < lines
}

// 4 OFFSETS: an offset or the stated length is not as it has to be.
fn offsets_wrong(h: Header) -> bool
    ensures { result ≡ offsets_wrong h.routines h.lines h.entries h.body h.stated }
{
    let entries = h.entries as usize;
    if entries != HEADER_BYTES {
        return true;
    }
    let due = HEADER_BYTES + ENTRY_BYTES * h.routines as usize;
    let body = h.body as usize;
    if body != due {
        return true;
    }
    let stated = h.stated as usize;
    stated != due + LINE_BYTES * h.lines as usize
}

// 2 to 5, in order. 2 FORMAT: format is not 1. 5 LENGTH: the slice is not as long as stated.
fn header_test(size: usize, h: Header) -> Result<(), Refusal>
    requires { header_bytes ≤ size }
    ensures { verdict_told result ≡ header_test size h.format h.routines h.lines h.entries h.body h.stated }
{
    let format = h.format;
    if format != THE_FORMAT {
        return Err(Refusal::of(Name::Format));
    }
    if counts_wrong(h.routines, h.lines) {
        return Err(Refusal::of(Name::Counts));
    }
    if offsets_wrong(h) {
        return Err(Refusal::of(Name::Offsets));
    }
    let stated = h.stated as usize;
    if size != stated {
        return Err(Refusal::of(Name::Length));
    }
    Ok(())
}

fn read_header(b: &[u8]) -> Header
    requires { header_bytes ≤ length b.now }
    ensures { HeaderOf b.now result }
{
    Header {
        format: two_byte(b, 0),
        routines: two_byte(b, 2),
        lines: two_byte(b, 4),
        entries: two_byte(b, 6),
        body: two_byte(b, 8),
        stated: two_byte(b, 10),
    }
}

// 1 SHORT: fewer than 12 bytes. Then 2 to 5.
pub(crate) fn header_verdict(b: &[u8]) -> Result<(), Refusal>
    ensures { verdict_told result ≡ header_verdict b.now }
{
    let size = b.len();
    if size < HEADER_BYTES {
        return Err(Refusal::of(Name::Short));
    }
    header_test(size, read_header(b))
}

// The counts that the header states.
pub fn counts_of(b: &[u8]) -> Counts
    requires { header_bytes ≤ length b.now }
    ensures { CountsOf b.now result }
{
    let h = read_header(b);
    Counts {
        routines: h.routines,
        lines: h.lines,
    }
}
