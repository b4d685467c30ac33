// How long each routine is when it is flattened, and where each of its lines starts: from the lowest routine up, one look at each line.
ghost use Rattle.std.specs.Prelude.{◌≡◌, ◌+◌, ◌<◌, ◌≤◌, min};
ghost use Rattle.scope.specs.Book.{routines, count, line_of, fields_in, book_of};
ghost use Rattle.scope.specs.Flattening.{line_length, flat_length, start};
ghost use Rattle.flatten.specs.Rows.{length_cap, Row, slot, due, Filled, Measured, Table, MeasuredAll, StartsOf};

use book::header::{MOST_LINES, MOST_ROUTINES};
use book::lines::{Line, RoutineLine};
use book::reader::Book;

// A row has a place for each routine.
pub const ROW: usize = MOST_ROUTINES as usize;

// The table of starts has one for each line, and for each routine's end.
pub(crate) const TABLE: usize = MOST_LINES as usize + MOST_ROUTINES as usize;

// At most 4,096 flat lines. Lengths stop at the next number, so that no sum wraps.
pub const MOST_FLAT_LINES: usize = 4096;

const LENGTH_CAP: u32 = MOST_FLAT_LINES as u32 + 1;

// Lengths: INC, DEC, GO TO 1; CALL the length of the routine; REPEAT that length plus 2.
// (The row of lengths stays beside the book: it is filled while it is read, and is known further at each turn.)
fn line_length(b: &Book, k: u16, j: RoutineLine, lengths: &[u32]) -> u32
    requires k_lt_routines { k < b.now.counts.routines }
    requires j_bound { j.0 < count b.now.bytes.now k }
    requires row { Row (flat_length (book_of b.now.bytes.now)) length_cap k lengths.now }
    ensures { result ≡ min (line_length (flat_length (book_of b.now.bytes.now)) (line_of (fields_in b.now.bytes.now k j.0))) length_cap }
{
    match b.line_at(k, j) {
        Line::Inc(_) | Line::Dec(_, _) | Line::GoTo(_) => 1,
        Line::Call(c) => lengths[c as usize],
        Line::Repeat(_, c) => (lengths[c as usize] + 2).min(LENGTH_CAP),
    }
}

// A line starts at the sum of the lengths before it: where the line behind line j starts, if line j starts here.
pub fn next_start(b: &Book, k: u16, j: RoutineLine, lengths: &[u32], here: u32) -> u32
    requires k_lt_routines { k < b.now.counts.routines }
    requires j_bound { j.0 < count b.now.bytes.now k }
    requires row { Row (flat_length (book_of b.now.bytes.now)) length_cap k lengths.now }
    requires here_value { here ≡ min (start (book_of b.now.bytes.now) k j.0) length_cap }
    ensures { result ≡ min (start (book_of b.now.bytes.now) k (j.0 + 1)) length_cap }
{
    (here + line_length(b, k, j, lengths)).min(LENGTH_CAP)
}

// Where the starts of routine k's lines stand in the table, and behind them its end's.
fn part(b: &Book, k: u16) -> usize
    requires { k < routines b.now.bytes.now }
    ensures { result ≡ slot b.now.bytes.now k 0 }
{
    b.first_line(k) as usize + k as usize
}

// Puts routine k's starts in the table; the last is its length.
fn measure(b: &Book, k: u16, lengths: &[u32], starts: &mut [u32; TABLE]) -> u32
    requires k_lt_routines { k < b.now.counts.routines }
    requires row { Row (flat_length (book_of b.now.bytes.now)) length_cap k lengths.now }
    requires filled { Filled b.now.bytes.now (due b.now.bytes.now k) starts.old }
    ensures { Measured b.now.bytes.now k result starts.new }
{
    let n = b.count(k);
    let at = part(b, k);
    let mut sum = 0;
    for j in 0..n {
        starts[at + j as usize] = sum;
        sum = next_start(b, k, RoutineLine(j), lengths, sum);
    }
    starts[at + n as usize] = sum;
    sum
}

// The row of lengths and the table of starts, from the lowest routine up.
pub(crate) fn measured(b: &Book, starts: &mut [u32; TABLE]) -> [u32; ROW]
    ensures { MeasuredAll b.now.bytes.now result starts.new }
{
    let routines = b.counts.routines;
    let mut lengths = [0u32; ROW];
    for k in 0..routines {
        lengths[k as usize] = measure(b, k, &lengths, starts);
    }
    lengths
}

// A taken book, with the table of where each of its lines starts.
#[derive(Clone, Copy)]
pub(crate) struct Starts<'a> {
    pub(crate) book: Book<'a>,
    pub(crate) table: &'a [u32; TABLE],
    pub(crate) ghost filled: { Table book.bytes.now table.now },
}

impl Starts<'_> {
    // The starts of routine k's lines, as they stand in the table.
    pub(crate) fn of(&self, k: u16) -> &[u32]
        requires { k < routines self.now.book.bytes.now }
        ensures { StartsOf self.now.book.bytes.now k result.now }
    {
        let at = part(&self.book, k);
        &self.table[at..at + self.book.count(k) as usize]
    }

    // Where line i of routine k starts, or its end, as it stands in the table.
    pub(crate) fn start_of(&self, k: u16, i: RoutineLine) -> usize
        requires k_bound { k < routines self.now.book.bytes.now }
        requires i_bound { i.0 ≤ count self.now.book.bytes.now k }
        ensures { result ≡ min (start (book_of self.now.book.bytes.now) k i.0) length_cap }
    {
        self.table[part(&self.book, k) + i.0 as usize] as usize
    }
}
