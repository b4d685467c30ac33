// The quote: how many steps a run of a steady routine can take at the most.
#![tactic(auto)]

mod looking; // looking.rt: one look at each routine's lines: its length, its registers, its quote
mod naming; // naming.rt: which registers are named in or under a routine
mod steady; // steady.rt: which routines are steady
mod sums; // sums.rt: quotes of 64 bits, or none

ghost use Rattle.std.specs.Prelude.{◌≡◌};
ghost use Rattle.scope.specs.Quote.{quote_answer};
ghost use Rattle.book.specs.Told.{number_told};

use book::reader::Book;
use book::refusals::{Name, Refusal};
use flatten::flattens;
use flatten::lengths::ROW;
use looking::Looks;
use steady::is_steady;

// Looks at every routine of a taken book; then 12, 11 and 13 as in flattening. Then: 18 NOT STEADY: the routine is not steady. 19 QUOTE:
// quote above 2^64-1.
fn quote_taken(b: &Book, routine: usize) -> Result<u64, Refusal>
    ensures { number_told result ≡ quote_answer b.now.bytes.now routine }
{
    // No quote stands in the rows yet. (The marks are no zeros, and lie between the others: so many zeros at once would be cleared by a call, for
    // which the stack that zn_quote is tested on is too small.)
    let mut looks = Looks {
        lengths: [0; ROW],
        masks: [0; ROW],
        overs: [true; ROW],
        numbers: [0; ROW],
    };
    looks.fill(b);
    flattens(b, routine, &looks.lengths)?;
    if !is_steady(b, &looks.masks, routine as u16) {
        return Err(Refusal::of(Name::NotSteady));
    }
    looks.quote(routine as u16).ok_or(Refusal::of(Name::Quote))
}

// Quotes one routine of a book: refused, or the number of steps. The routine's number comes in wide.
pub fn quote(b: &[u8], routine: usize) -> Result<u64, Refusal>
    ensures { number_told result ≡ quote_answer b.now routine }
{
    quote_taken(&Book::open(b)?, routine)
}
