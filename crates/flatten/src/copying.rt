// The copying: each flat line is worked out by itself, over one table of starts that serves all copies. What decides only reads, and one
// loop writes the output. A flat line opens at most 32 copies and halves at most 12 times in each, so n flat lines take at most 12 * 32 * n
// halvings whatever the book. A routine of length 0 is never opened. Where a line follows the last one in its copy nothing is searched, and
// else a guess and the line behind it are tried before a line is searched.
ghost use Rattle.std.specs.Prelude.{◌≡◌, ◌+◌, ◌<◌, ◌≤◌, length, IfSome};
ghost use Rattle.scope.specs.Book.{most_lines, count, REPEAT, line_of, fields_in, book_of};
ghost use Rattle.scope.specs.Flattening.{flat_length, start, flat_program, flat_book, flat_book_bytes, at_the_front_of};
ghost use Rattle.book.specs.Written.{with_lines};
ghost use Rattle.flatten.specs.declared.copying.Inside.TheVariants.{Stands};
ghost use Rattle.flatten.specs.Copies.{CopyWithin, InTheCopy, InTheLine, LineAround, LiesIn, ComesTo, PastedAt, InsideIs};

use super::lengths::{ROW, Starts};
use book::flat::{FlatLine, Instruction, put_header, put_line};
use book::lines::{Line, Reg, RoutineLine};

// A line, or the end, of a copy of a routine that begins at a flat line.
#[derive(Clone, Copy, Debug, PartialEq, Eq)]
struct Place {
    routine: u16,
    base: FlatLine,
    line: RoutineLine,
}

impl Place {
    // The first line of the copy of a routine that begins at a flat line.
    fn first(routine: u16, base: FlatLine) -> Place
        ensures { result ≡ record { routine = routine; base = base; line = record { 0 = 0 } } }
    {
        Place {
            routine,
            base,
            line: RoutineLine(0),
        }
    }

    // The line behind it, or the end of its copy.
    fn behind(self) -> Place
        requires { self.line.0 < most_lines }
        ensures { result ≡ record { routine = self.routine; base = self.base; line = record { 0 = self.line.0 + 1 } } }
    {
        Place {
            line: RoutineLine(self.line.0 + 1),
            ..self
        }
    }
}

// What stands at a flat line, and the place at which the next flat line starts.
#[derive(Clone, Copy, Debug, PartialEq, Eq)]
struct Pasted {
    instruction: Instruction,
    behind: Place,
}

// What is found where a flat line lies in a line of a copy: what stands there; or it lies in the copy of the routine that the line uses.
// (Neither is a failure, and the names say which is which: so it is no Result.)
#[derive(Clone, Copy, Debug, PartialEq, Eq)]
enum Inside {
    Stands(Pasted),
    Deeper(Place),
}

impl Inside {
    // This stands at the flat line, and behind it the next place.
    fn stands(instruction: Instruction, behind: Place) -> Inside
        ensures { result ≡ Stands (record { instruction = instruction; behind = behind }) }
    {
        Inside::Stands(Pasted {
            instruction,
            behind,
        })
    }
}

// The starts, a place and a flat line travel together from here on. They stay apart, since what is known of them is another thing in each function:
// that the flat line is in the copy, in the line, or come to; a value for each would be made anew at every step of the search.

// A target becomes the start of that line, the end becomes the end, both moved by where this copy of the routine begins.
// A flat line number is made of a routine's here and nowhere else.
fn moved(starts: &Starts, at: Place, target: RoutineLine) -> FlatLine
    requires copy_within { CopyWithin starts.now.book.bytes.now at.routine at.base.0 }
    requires target_bound { target.0 ≤ count starts.now.book.bytes.now at.routine }
    ensures { result.0 ≡ at.base.0 + start (book_of starts.now.book.bytes.now) at.routine target.0 }
{
    FlatLine(at.base.0 + starts.start_of(at.routine, target))
}

// The line of a copy in which flat line p lies, by halving: the last that starts at or before p. Where a line of length 0 starts the one
// behind it starts too, so it is never found.
fn halve(starts: &Starts, copy: Place, p: FlatLine) -> RoutineLine
    requires { InTheCopy starts.now.book.bytes.now copy.routine copy.base.0 p.0 }
    ensures { InTheLine starts.now.book.bytes.now copy.routine copy.base.0 result.0 p.0 }
{
    let x = p.0 - copy.base.0;
    let behind = starts
        .of(copy.routine)
        .partition_point(|s| *s as usize <= x);
    RoutineLine((behind - 1) as u16)
}

// A REPEAT of register j that starts at p, over length s, becomes DEC j to p+s+2, the copy from p+1, then GO TO p at p+s+1.
fn in_repeat(starts: &Starts, at: Place, r: Reg, c: u16, p: FlatLine) -> Inside
    requires in_the_line { InTheLine starts.now.book.bytes.now at.routine at.base.0 at.line.0 p.0 }
    requires line_value { line_of (fields_in starts.now.book.bytes.now at.routine at.line.0) ≡ REPEAT r.0 c }
    ensures { InsideIs starts.now.book.bytes.now at.routine at.base.0 p.0 result }
{
    let start = moved(starts, at, at.line);
    let end = moved(starts, at, RoutineLine(at.line.0 + 1));
    let last = FlatLine(end.0 - 1);
    if p == last {
        return Inside::stands(Instruction::GoTo(start), at.behind());
    }
    let body = Place::first(c, FlatLine(start.0 + 1));
    if p == start {
        return Inside::stands(Instruction::Dec(r, end), body);
    }
    Inside::Deeper(body)
}

// What a line of a copy leaves at flat line p. A CALL leaves only the copy.
fn look_inside(starts: &Starts, at: Place, p: FlatLine) -> Inside
    requires { InTheLine starts.now.book.bytes.now at.routine at.base.0 at.line.0 p.0 }
    ensures { InsideIs starts.now.book.bytes.now at.routine at.base.0 p.0 result }
{
    match starts.book.line_at(at.routine, at.line) {
        Line::Inc(r) => Inside::stands(Instruction::Inc(r), at.behind()),
        Line::Dec(r, t) => Inside::stands(Instruction::Dec(r, moved(starts, at, t)), at.behind()),
        Line::GoTo(t) => Inside::stands(Instruction::GoTo(moved(starts, at, t)), at.behind()),
        Line::Call(c) => Inside::Deeper(Place::first(c, moved(starts, at, at.line))),
        Line::Repeat(r, c) => in_repeat(starts, at, r, c, p),
    }
}

// The line of a copy in which flat line p lies, if it is the one that is guessed or the one behind it: where a routine of one line is used line
// after line, it is the one behind. They are tried as if nothing were known of the guess.
fn guessed(starts: &Starts, guess: Place, p: FlatLine) -> Option<Place>
    requires { InTheCopy starts.now.book.bytes.now guess.routine guess.base.0 p.0 }
    ensures { IfSome result (λ at. LineAround starts.now.book.bytes.now guess p.0 at) }
{
    let n = starts.book.count(guess.routine);
    if n <= guess.line.0 {
        return None;
    }
    if p < moved(starts, guess, guess.line) {
        return None;
    }
    let next = guess.behind();
    if p < moved(starts, guess, next.line) {
        return Some(guess);
    }
    if n <= next.line.0 {
        return None;
    }
    if p < moved(starts, guess, next.behind().line) {
        return Some(next);
    }
    None
}

// The line of a copy in which flat line p lies: by the guess, or searched.
fn line_around(starts: &Starts, guess: Place, p: FlatLine) -> Place
    requires { InTheCopy starts.now.book.bytes.now guess.routine guess.base.0 p.0 }
    ensures { LineAround starts.now.book.bytes.now guess p.0 result }
{
    match guessed(starts, guess, p) {
        Some(at) => at,
        None => Place {
            line: halve(starts, guess, p),
            ..guess
        },
    }
}

// The line of a copy in which flat line p lies. `seen` has for each routine the line in which it was found last: there it often is again.
fn open(starts: &Starts, copy: Place, p: FlatLine, seen: &mut [RoutineLine; ROW]) -> Place
    requires in_the_copy { InTheCopy starts.now.book.bytes.now copy.routine copy.base.0 p.0 }
    ensures { LineAround starts.now.book.bytes.now copy p.0 result }
{
    let k = copy.routine as usize;
    let guess = Place {
        line: seen[k],
        ..copy
    };
    let at = line_around(starts, guess, p);
    seen[k] = at.line;
    at
}

// A routine that passed its tests, with its book's table of starts. It has n flat lines.
#[derive(Clone, Copy)]
pub(crate) struct Asked<'a> {
    pub(crate) starts: Starts<'a>,
    pub(crate) routine: u16,
    pub(crate) n: usize,
    pub(crate) ghost fits: { CopyWithin starts.book.bytes.now routine 0 },
    pub(crate) ghost size: { n ≡ flat_length (book_of starts.book.bytes.now) routine },
}

impl Asked<'_> {
    // The line in which flat line p lies: the one that starts there, or one found from the top if that is empty or the copy is at its end.
    fn around(&self, here: Place, p: FlatLine, seen: &mut [RoutineLine; ROW]) -> Place
        requires comes_to { ComesTo (flat_program (book_of self.now.starts.book.bytes.now) self.now.routine) self.now.starts.book.bytes.now here p.0 }
        requires p_bound { p.0 < self.now.n }
        ensures { LiesIn (flat_program (book_of self.now.starts.book.bytes.now) self.now.routine) self.now.starts.book.bytes.now result p.0 }
    {
        if here.line.0 < self.starts.book.count(here.routine) {
            let end = moved(&self.starts, here, RoutineLine(here.line.0 + 1));
            if p < end {
                return here;
            }
        }
        open(
            &self.starts,
            Place::first(self.routine, FlatLine(0)),
            p,
            seen,
        )
    }

    // What stands at flat line p. The routine falls at each turn.
    fn paste_at(&self, here: Place, p: FlatLine, seen: &mut [RoutineLine; ROW]) -> Pasted
        requires comes_to { ComesTo (flat_program (book_of self.now.starts.book.bytes.now) self.now.routine) self.now.starts.book.bytes.now here p.0 }
        requires p_bound { p.0 < self.now.n }
        ensures { PastedAt (flat_program (book_of self.now.starts.book.bytes.now) self.now.routine) self.now.starts.book.bytes.now p.0 result }
    {
        let mut at = self.around(here, p, seen);
        loop {
            let found = look_inside(&self.starts, at, p);
            match found {
                Inside::Stands(x) => {
                    return x;
                }
                Inside::Deeper(copy) => {
                    at = open(&self.starts, copy, p, seen);
                }
            }
        }
    }

    // Writes its flat lines, one behind the other.
    fn put_lines(&self, out: &mut [u8])
        requires { flat_book_bytes self.now.n ≤ length out.old }
        ensures { out.new ≡ with_lines out.old self.now.n (flat_program (book_of self.now.starts.book.bytes.now) self.now.routine) }
    {
        let mut seen = [RoutineLine(0); ROW];
        let mut here = Place::first(self.routine, FlatLine(0));
        for p in 0..self.n {
            let found = self.paste_at(here, FlatLine(p), &mut seen);
            let x = found.instruction;
            put_line(out, FlatLine(p), x);
            here = found.behind;
        }
    }

    // Writes its flat book: the header and then the lines.
    pub(crate) fn put_book(&self, out: &mut [u8])
        requires { flat_book_bytes self.now.n ≤ length out.old }
        ensures { out.new ≡ at_the_front_of out.old (flat_book (flat_program (book_of self.now.starts.book.bytes.now) self.now.routine)) }
    {
        put_header(out, self.n as u16);
        self.put_lines(out);
    }
}
