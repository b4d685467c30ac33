// 11 DEPTH: more than 32 routines open inside one another. From the lowest routine up to the asked one, one look at each line.
ghost use Rattle.std.specs.Prelude.{◌≡◌, ◌<◌, min};
ghost use Rattle.scope.specs.Words.{◌above◌};
ghost use Rattle.scope.specs.Book.{count, line_of, fields_in, book_of, used};
ghost use Rattle.scope.specs.Flattening.{most_open, depth};
ghost use Rattle.flatten.specs.Rows.{Row};
ghost use Rattle.flatten.specs.Depths.{depth_cap};

use super::lengths::ROW;
use book::lines::{Line, RoutineLine};
use book::reader::Book;

const MOST_OPEN: u32 = 32;

const DEPTH_CAP: u32 = MOST_OPEN + 1;

// How many routines are open inside a line.
fn line_depth(b: &Book, k: u16, j: RoutineLine, depths: &[u32]) -> u32
    requires k_lt_routines { k < b.now.counts.routines }
    requires j_bound { j.0 < count b.now.bytes.now k }
    requires row { Row (depth (book_of b.now.bytes.now)) depth_cap k depths.now }
    ensures { result ≡ min (used 0 (depth (book_of b.now.bytes.now)) (line_of (fields_in b.now.bytes.now k j.0))) depth_cap }
{
    match b.line_at(k, j) {
        Line::Inc(_) | Line::Dec(_, _) | Line::GoTo(_) => 0,
        Line::Call(c) | Line::Repeat(_, c) => depths[c as usize],
    }
}

// Routine k, and the deepest that it uses.
fn routine_depth(b: &Book, k: u16, depths: &[u32]) -> u32
    requires k_lt_routines { k < b.now.counts.routines }
    requires row { Row (depth (book_of b.now.bytes.now)) depth_cap k depths.now }
    ensures { result ≡ min (depth (book_of b.now.bytes.now) k) depth_cap }
{
    let mut deepest: u32 = 0;
    for j in 0..b.count(k) {
        deepest = deepest.max(line_depth(b, k, RoutineLine(j), depths));
    }
    (1 + deepest).min(DEPTH_CAP)
}

// The test, over a row from the lowest routine up.
pub(crate) fn too_deep(b: &Book, routine: u16) -> bool
    requires routine_lt_routines { routine < b.now.counts.routines }
    ensures { result ≡ (depth (book_of b.now.bytes.now) routine above most_open) }
{
    let mut depths = [0u32; ROW];
    for k in 0..=routine {
        depths[k as usize] = routine_depth(b, k, &depths);
    }
    MOST_OPEN < depths[routine as usize]
}
