// Which routines are steady. Each line is tested once: from the lowest routine up a row keeps the answers.
ghost use Rattle.std.specs.Prelude.{◌≡◌, ◌<◌};
ghost use Rattle.scope.specs.Book.{count, line_of, fields_in, book_of};
ghost use Rattle.scope.specs.Quote.{named, line_steady, steady};
ghost use Rattle.quote.specs.Naming.{Masks};
ghost use Rattle.quote.specs.Steadiness.{Tested};

use super::naming::has;
use book::lines::{Line, RoutineLine};
use book::reader::Book;
use flatten::lengths::ROW;

// What a test goes by: a taken book, which registers each routine names, and the answers for the routines below the mark.
#[derive(Clone, Copy)]
struct Tests<'a, 'b> {
    book: &'a Book<'b>,
    masks: &'a [u32; ROW],
    tested: &'a [bool; ROW],
    mark: u16,
    ghost masks_are: { Masks book.now.bytes.now book.now.counts.routines masks.now },
    ghost tested_are: { Tested book.now.bytes.now mark tested.now },
}

impl Tests<'_, '_> {
    // A DEC or GO TO line is steady if its target is above its own number. A line that calls is steady if the routine is. A REPEAT line also
    // needs that its register is not named in the repeated routine or in any routine used under it. INC is always steady.
    #[cycle(steadiness)]
    #[tactic(auto, using(std::proofs::lemmas::Bool::Decides::nat_tests), unfolding(scope::specs::Quote::line_steady, book::specs::Told::line_told))]
    fn line_steady(&self, k: u16, j: RoutineLine) -> bool
        requires k_lt_routines { k < self.now.book.now.counts.routines }
        requires j_bound { j.0 < count self.now.book.now.bytes.now k }
        ensures { result ≡ line_steady (named (book_of self.now.book.now.bytes.now)) (steady (book_of self.now.book.now.bytes.now)) j.0 (line_of (fields_in self.now.book.now.bytes.now k j.0)) }
    {
        match self.book.line_at(k, j) {
            Line::Inc(_) => true,
            // (An arm for each: so a slip in one of them is seen by itself.)
            Line::Dec(_, t) => j < t,
            Line::GoTo(t) => j < t,
            Line::Call(c) => self.routine_steady(c),
            Line::Repeat(r, c) => {
                if has(self.masks[c as usize], r) {
                    return false;
                }
                self.routine_steady(c)
            }
        }
    }

    // A routine is steady if its lines are. One below the mark is in the row. From here to a line and on to the routine that it uses the
    // number falls; in the loop the lines left.
    #[cycle(steadiness)]
    fn routine_steady(&self, k: u16) -> bool
        requires { k < self.now.book.now.counts.routines }
        ensures { result ≡ steady (book_of self.now.book.now.bytes.now) k }
    {
        if k < self.mark {
            return self.tested[k as usize];
        }
        for j in 0..self.book.count(k) {
            if !self.line_steady(k, RoutineLine(j)) {
                return false;
            }
        }
        true
    }
}

// The test, over a row from the lowest routine up to the asked one.
pub(crate) fn is_steady(b: &Book, masks: &[u32; ROW], routine: u16) -> bool
    requires masks { Masks b.now.bytes.now b.now.counts.routines masks.now }
    requires routine_lt_routines { routine < b.now.counts.routines }
    ensures { result ≡ steady (book_of b.now.bytes.now) routine }
{
    // (A copy to lend to all tests: the caller's book then needs no place in memory, from which it would be read before it is there.)
    let book = *b;
    let mut tested = [false; ROW];
    for k in 0..=routine {
        let below = Tests {
            book: &book,
            masks: &*masks,
            tested: &tested,
            mark: k,
        };
        tested[k as usize] = below.routine_steady(k);
    }
    tested[routine as usize]
}
