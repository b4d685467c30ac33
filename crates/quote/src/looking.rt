// One look at the lines of each routine: how long it is, which registers it names, and what it quotes.
ghost use Rattle.std.specs.Prelude.{◌≡◌, ◌<◌};
ghost use Rattle.scope.specs.Book.{most_routines};
ghost use Rattle.quote.specs.Sums.{in_the_rows};
ghost use Rattle.quote.specs.Looked.{LookedAt, LookedBelow};

use super::naming::line_mask;
use super::sums::{added, line_quote};
use book::lines::RoutineLine;
use book::reader::Book;
use flatten::lengths::{ROW, next_start};

// What a look tells. The length stops at 4,097, as in flattening; there is a quote where 64 bits hold it.
#[derive(Clone, Copy, Debug, PartialEq, Eq)]
struct Looked {
    length: u32,
    mask: u32,
    quote: Option<u64>,
}

// What the looks told, a row for each part: flattening reads the lengths alone, and the steady test the masks alone. A quote stands in two rows,
// its number and the mark that there is none: a row of `Option<u64>` takes nearly twice as much, and a short book's quote waits for its clearing.
#[derive(Drop)]
pub(crate) struct Looks {
    pub(crate) lengths: [u32; ROW],
    pub(crate) masks: [u32; ROW],
    pub(crate) overs: [bool; ROW],
    pub(crate) numbers: [u64; ROW],
}

impl Looks {
    // What the two rows have of a routine's quote.
    pub(crate) fn quote(&self, c: u16) -> Option<u64>
        requires { c < most_routines }
        ensures { result ≡ in_the_rows self.now.numbers self.now.overs c }
    {
        if self.overs[c as usize] {
            return None;
        }
        Some(self.numbers[c as usize])
    }

    // A routine the sum of its lines. What it uses stands in the rows.
    fn look(&self, b: &Book, k: u16) -> Looked
        requires k_lt_routines { k < b.now.counts.routines }
        requires looked_below { LookedBelow b.now.bytes.now k self.now }
        ensures { LookedAt b.now.bytes.now k result }
    {
        let mut length: u32 = 0;
        let mut mask: u32 = 0;
        let mut quote = Some(0);
        for j in 0..b.count(k) {
            let line = RoutineLine(j);
            length = next_start(b, k, line, &self.lengths, length);
            mask |= line_mask(b, k, line, &self.masks);
            quote = added(quote, line_quote(b, k, line, self));
        }
        Looked {
            length,
            mask,
            quote,
        }
    }

    // Looks at every routine of a taken book, from the lowest up. The rows are the caller's, since what is returned is copied: zn_quote has a
    // small stack.
    pub(crate) fn fill(&mut self, b: &Book)
        ensures { LookedBelow b.now.bytes.now b.now.counts.routines self.new }
    {
        for k in 0..b.counts.routines {
            let x = self.look(b, k);
            self.lengths[k as usize] = x.length;
            self.masks[k as usize] = x.mask;
            self.overs[k as usize] = x.quote.is_none();
            self.numbers[k as usize] = x.quote.unwrap_or(0);
        }
    }
}
