// Quotes are exact sums. A number of 64 bits keeps one; of a quote above 2^64-1 there is none.
ghost use Rattle.std.specs.Prelude.{ℕ, ◌≡◌, ◌+◌, ◌*◌, ◌<◌};
ghost use Rattle.scope.specs.Steps.{top};
ghost use Rattle.scope.specs.Book.{count, line_of, fields_in, book_of};
ghost use Rattle.scope.specs.Quote.{line_quote, quote};
ghost use Rattle.quote.specs.Sums.{kept};
ghost use Rattle.quote.specs.Looked.{LookedBelow};

use super::looking::Looks;
use book::lines::{Line, RoutineLine, TOP};
use book::reader::Book;

// REPEAT goes round as often as a register counts.
const ROUNDS: u64 = TOP as u64;

// No sum wraps. (One test for the three reasons: `a?.checked_add(b?)` asks them one by one, at every line.)
#[tactic(auto, using(std::proofs::lemmas::Bool::Decides::nat_tests), unfolding(crate::specs::Sums::kept))]
pub(crate) fn added(a: Option<u64>, b: Option<u64>) -> Option<u64>
    ensures { (p q : ℕ) → a ≡ kept p → b ≡ kept q → result ≡ kept (p + q) }
{
    let (sum, wraps) = a.unwrap_or(0).overflowing_add(b.unwrap_or(0));
    if wraps | a.is_none() | b.is_none() {
        return None;
    }
    Some(sum)
}

// REPEAT 65,535 x (quote + 2) + 1. No product wraps.
#[tactic(auto, using(std::proofs::lemmas::Bool::Decides::nat_tests), unfolding(crate::specs::Sums::kept))]
fn repeated(a: Option<u64>) -> Option<u64>
    ensures { (q : ℕ) → a ≡ kept q → result ≡ kept (top * (q + 2) + 1) }
{
    a?.checked_add(2)?.checked_mul(ROUNDS)?.checked_add(1)
}

// The quote: INC, DEC, GO TO 1; CALL the routine's quote; REPEAT 65,535 x (quote + 2) + 1.
pub(crate) fn line_quote(b: &Book, k: u16, j: RoutineLine, looks: &Looks) -> Option<u64>
    requires k_lt_routines { k < b.now.counts.routines }
    requires j_bound { j.0 < count b.now.bytes.now k }
    requires looked_below { LookedBelow b.now.bytes.now k looks.now }
    ensures { result ≡ kept (line_quote (quote (book_of b.now.bytes.now)) (line_of (fields_in b.now.bytes.now k j.0))) }
{
    match b.line_at(k, j) {
        Line::Inc(_) | Line::Dec(_, _) | Line::GoTo(_) => Some(1),
        Line::Call(c) => looks.quote(c),
        Line::Repeat(_, c) => repeated(looks.quote(c)),
    }
}
