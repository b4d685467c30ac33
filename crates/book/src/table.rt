// The routine table, 4 bytes each: first line, number of lines. Test 6.
ghost use Rattle.std.specs.Prelude.{◌≡◌};
ghost use Rattle.scope.specs.Book.{first_line, count, table_verdict};
ghost use Rattle.book.specs.Told.{verdict_told};
ghost use Rattle.book.specs.Asked.{EntryWithin, Sized};

use super::header::{Counts, ENTRY_BYTES, HEADER_BYTES};
use super::numbers::two_byte;
use super::refusals::{Name, Refusal};

// (These read the slice: test 6 calls them before there is a taken book, and they ask less than one.)

// The line of the whole book at which a routine starts.
pub fn first_line(b: &[u8], routine: u16) -> u16
    requires { EntryWithin b.now routine }
    ensures { result ≡ first_line b.now routine }
{
    two_byte(b, HEADER_BYTES + ENTRY_BYTES * routine as usize)
}

// How many lines a routine has.
pub fn count(b: &[u8], routine: u16) -> u16
    requires { EntryWithin b.now routine }
    ensures { result ≡ count b.now routine }
{
    two_byte(b, HEADER_BYTES + ENTRY_BYTES * routine as usize + 2)
}

// 6 ROUTINE: the first routine starts at line 0, each next one where the one before ended, and the last ends at L.
pub(crate) fn table_verdict(b: &[u8], counts: Counts) -> Result<(), Refusal>
    requires { Sized b.now counts }
    ensures { verdict_told result ≡ table_verdict b.now }
{
    let routines = counts.routines;
    let lines = counts.lines;
    let mut due: usize = 0;
    for r in 0..routines {
        let first = first_line(b, r) as usize;
        if first != due {
            return Err(Refusal::at(Name::Routine, r));
        }
        due = first + count(b, r) as usize;
    }
    if due != lines as usize {
        return Err(Refusal::at(Name::Routine, routines - 1));
    }
    Ok(())
}
