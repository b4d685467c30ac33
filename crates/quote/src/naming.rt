// Which registers are named in a routine, or in any routine used under it: a mask of 32 bits for each.
ghost use Rattle.std.specs.Prelude.{◌≡◌, ◌<◌};
ghost use Rattle.scope.specs.Steps.{register_count};
ghost use Rattle.scope.specs.Words.{◌is◌};
ghost use Rattle.scope.specs.Book.{count, line_of, fields_in};
ghost use Rattle.quote.specs.Naming.{bit, Marks, line_names, Masks};

use book::lines::{Line, Reg, RoutineLine};
use book::reader::Book;

// The mask of one register.
fn only(r: Reg) -> u32
    requires { r.0 < register_count }
    ensures { Marks (λ j. r.0 is j) result }
{
    1 << r.0
}

// Whether a mask has a register.
#[tactic(auto, unfolding(crate::specs::Naming::bit))]
pub(crate) fn has(mask: u32, r: Reg) -> bool
    requires { r.0 < register_count }
    ensures { result ≡ bit r.0 mask }
{
    (mask >> r.0) % 2 == 1
}

// Named by INC, DEC or REPEAT; and what is named in or under the routine that a line uses is named by it too.
pub(crate) fn line_mask(b: &Book, k: u16, j: RoutineLine, masks: &[u32]) -> u32
    requires k_lt_routines { k < b.now.counts.routines }
    requires j_bound { j.0 < count b.now.bytes.now k }
    requires masks { Masks b.now.bytes.now k masks.now }
    ensures { Marks (line_names b.now.bytes.now (line_of (fields_in b.now.bytes.now k j.0))) result }
{
    match b.line_at(k, j) {
        Line::Inc(r) | Line::Dec(r, _) => only(r),
        Line::GoTo(_) => 0,
        Line::Call(c) => masks[c as usize],
        Line::Repeat(r, c) => only(r) | masks[c as usize],
    }
}
