// Flattening: a routine of a book, with all that it uses, becomes one flat program.
#![tactic(auto)]

mod copying; // copying.rt: what stands at each flat line
mod depth; // depth.rt: test 11
pub mod lengths; // lengths.rt: how long each routine is, and where its lines start

ghost use Rattle.std.specs.Prelude.{◌≡◌};
ghost use Rattle.scope.specs.Refusals.{answer_of};
ghost use Rattle.scope.specs.Book.{routines, book_of};
ghost use Rattle.scope.specs.Flattening.{flat_length, flattens_verdict, flatten_call};
ghost use Rattle.book.specs.Told.{number_told};
ghost use Rattle.flatten.specs.Rows.{length_cap, Row};

use book::flat::FLAT_HEADER_BYTES;
use book::header::LINE_BYTES;
use book::reader::Book;
use book::refusals::{Name, Refusal};
use copying::Asked;
use lengths::{MOST_FLAT_LINES, Starts, TABLE};

// Then: flattening 12, 11, 13; quote 12, 11, 13. 12 NO ROUTINE: asked routine not below R. 13 TOO LONG: flat length above 4,096.
pub fn flattens(b: &Book, routine: usize, lengths: &[u32]) -> Result<usize, Refusal>
    requires { Row (flat_length (book_of b.now.bytes.now)) length_cap (routines b.now.bytes.now) lengths.now }
    ensures { number_told result ≡ answer_of (flattens_verdict b.now.bytes.now routine) (flat_length (book_of b.now.bytes.now) routine) }
{
    if b.counts.routines as usize <= routine {
        return Err(Refusal::of(Name::NoRoutine));
    }
    if depth::too_deep(b, routine as u16) {
        return Err(Refusal::of(Name::Depth));
    }
    let n = lengths[routine] as usize;
    if MOST_FLAT_LINES < n {
        return Err(Refusal::of(Name::TooLong));
    }
    Ok(n)
}

// Measures a taken book, makes the tests of its routine, then 14 NO ROOM: output shorter than 16 + 4n bytes; and writes.
fn flatten_taken(b: &Book, routine: usize, out: &mut [u8]) -> Result<usize, Refusal>
    ensures { record { answer = number_told result; left = out.new } ≡ flatten_call b.now.bytes.now routine out.old }
{
    let mut table = [0u32; TABLE];
    let lengths = lengths::measured(b, &mut table);
    let n = flattens(b, routine, &lengths)?;
    let starts = Starts {
        book: *b,
        table: &table,
    };
    let asked = Asked {
        starts,
        routine: routine as u16,
        n,
    };
    if out.len() < FLAT_HEADER_BYTES + LINE_BYTES * n {
        return Err(Refusal::of(Name::NoRoom));
    }
    asked.put_book(out);
    Ok(n)
}

// Flattens one routine of a book. Accepted, the flat book stands at the front of the output and what stands behind it stays; refused, the
// output is as it was. The routine's number comes in wide.
pub fn flatten(b: &[u8], routine: usize, out: &mut [u8]) -> Result<usize, Refusal>
    ensures { record { answer = number_told result; left = out.new } ≡ flatten_call b.now routine out.old }
{
    flatten_taken(&Book::open(b)?, routine, out)
}
