// A book's bytes: checking it, and reading one line of it. The book is the caller's slice, and no copy of it is made.
#![tactic(auto)]

pub mod flat; // flat.rt: a flat book's lines, written and read
pub mod header; // header.rt: the twelve bytes at the front, tests 1 to 5
mod judging; // judging.rt: the lines' tests, 7 to 10
pub mod lines; // lines.rt: what stands in a line
pub mod numbers; // numbers.rt: two-byte numbers, low byte first
pub mod reader; // reader.rt: the book reader
pub mod refusals; // refusals.rt: the table of refusals
pub mod table; // table.rt: where each routine starts and how many lines it has, test 6

ghost use Rattle.std.specs.Prelude.{◌≡◌};
ghost use Rattle.scope.specs.Book.{book_verdict, check_answer, read_answer};
ghost use Rattle.book.specs.Told.{verdict_told, check_told, read_told};

use header::Counts;
use lines::{Line, RoutineLine};
use reader::Book;
use refusals::{Name, Refusal};

// Order: 1 to 6, then the lines from the first.
fn book_verdict(b: &[u8]) -> Result<(), Refusal>
    ensures { verdict_told result ≡ book_verdict b.now }
{
    header::header_verdict(b)?;
    let counts = header::counts_of(b);
    table::table_verdict(b, counts)?;
    judging::lines_verdict(b, counts)
}

// Taken, with its counts, or refused.
pub fn check(b: &[u8]) -> Result<Counts, Refusal>
    ensures { check_told result ≡ check_answer b.now }
{
    book_verdict(b)?;
    Ok(header::counts_of(b))
}

// Then: reading 12, 17. 12 NO ROUTINE: asked routine not below R. 17 LINE: line to read not below its routine's count.
fn read_taken(b: &Book, routine: usize, line: usize) -> Result<Line, Refusal>
    ensures { read_told result ≡ read_answer b.now.bytes.now routine line }
{
    if b.counts.routines as usize <= routine {
        return Err(Refusal::of(Name::NoRoutine));
    }
    let r = routine as u16;
    if b.count(r) as usize <= line {
        return Err(Refusal::of(Name::Line));
    }
    Ok(b.line_at(r, RoutineLine(line as u16)))
}

// What stands at a line counted inside its routine, or refused. Both numbers come in wide.
pub fn read_line(b: &[u8], routine: usize, line: usize) -> Result<Line, Refusal>
    ensures { read_told result ≡ read_answer b.now routine line }
{
    read_taken(&Book::open(b)?, routine, line)
}
