// The book reader: a taken book's bytes, where the caller has them, with their counts. No copy of the bytes is made.
ghost use Rattle.std.specs.Prelude.{◌≡◌, ◌<◌, IfOk};
ghost use Rattle.scope.specs.Book.{routines, first_line, count, line_of, fields_in, check_answer};
ghost use Rattle.book.specs.Told.{result_told, counts_told, line_told};
ghost use Rattle.book.specs.Asked.{TakenWith};

use super::header::Counts;
use super::lines::{Line, RoutineLine, line_at};
use super::refusals::Refusal;
use super::{check, table};

// That the bytes are a taken book and the counts are its own is true of every reader, so no caller has to say it again.
// (A routine's or a line's number stays a number beside it: loops count them, and a value for each turn would only hold the book again.)
#[derive(Clone, Copy)]
pub struct Book<'a> {
    pub bytes: &'a [u8],
    pub counts: Counts,
    pub ghost taken: { TakenWith bytes.now counts },
}

// The functions behind `open` read what was checked there.
impl<'a> Book<'a> {
    ghost use Rattle.book.specs.Opened.{opened_counts};

    // The book in these bytes, checked, or refused.
    pub fn open(bytes: &'a [u8]) -> Result<Book<'a>, Refusal>
        ensures answer { result_told opened_counts result ≡ check_answer bytes.now }
        ensures same_bytes { IfOk result (λ book. book.bytes.now ≡ bytes.now) }
    {
        let counts = check(bytes)?;
        Ok(Book { bytes, counts })
    }

    // The line of the whole book at which a routine starts.
    pub fn first_line(&self, routine: u16) -> u16
        requires { routine < routines self.now.bytes.now }
        ensures { result ≡ first_line self.now.bytes.now routine }
    {
        table::first_line(self.bytes, routine)
    }

    // How many lines a routine has.
    pub fn count(&self, routine: u16) -> u16
        requires { routine < routines self.now.bytes.now }
        ensures { result ≡ count self.now.bytes.now routine }
    {
        table::count(self.bytes, routine)
    }

    // Line j of a routine.
    pub fn line_at(&self, routine: u16, j: RoutineLine) -> Line
        requires routine_of_the_book { routine < routines self.now.bytes.now }
        requires line_of_the_routine { j.0 < count self.now.bytes.now routine }
        ensures { line_told result ≡ line_of (fields_in self.now.bytes.now routine j.0) }
    {
        line_at(self.bytes, self.counts, routine, j)
    }
}
