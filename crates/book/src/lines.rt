// What stands in a line, 4 bytes: kind, register, two-byte operand; and reading it.
ghost use Rattle.std.specs.Prelude.{◌≡◌, ◌<◌};
ghost use Rattle.scope.specs.Book.{line_of, count, fields_at, fields_in};
ghost use Rattle.book.specs.Told.{IsKind, fields_told, line_told};
ghost use Rattle.book.specs.Asked.{LineWithin, Tabled};

use super::header::{Counts, ENTRY_BYTES, HEADER_BYTES, LINE_BYTES};
use super::numbers::two_byte;
use super::refusals::Name;
use super::table;

// A register number and a routine's line number, kept apart.
#[derive(Clone, Copy, Debug, PartialEq, Eq)]
pub struct Reg(pub u8);

#[derive(Clone, Copy, Debug, PartialEq, Eq, PartialOrd, Ord)]
pub struct RoutineLine(pub u16);

// What a register counts to.
pub const TOP: u16 = 65535;

// A target counts lines of its routine; CALL and REPEAT name a routine.
#[derive(Clone, Copy, Debug, PartialEq, Eq)]
pub enum Line {
    Inc(Reg),
    Dec(Reg, RoutineLine),
    GoTo(RoutineLine),
    Call(u16),
    Repeat(Reg, u16),
}

// The table of kinds.
#[derive(Clone, Copy, Debug, PartialEq, Eq)]
pub(crate) enum Kind {
    Inc = 1,
    Dec = 2,
    GoTo = 3,
    Call = 4,
    Repeat = 5,
}

// The kinds' bytes, since a pattern has to be a constant. (A line is read from its byte and not through `Kind`: its kind was tested, so an arm for
// "no kind" would stand there that nothing reaches.)
pub(crate) const INC: u8 = Kind::Inc as u8;

pub(crate) const DEC: u8 = Kind::Dec as u8;

pub(crate) const GO_TO: u8 = Kind::GoTo as u8;

const CALL: u8 = Kind::Call as u8;

const REPEAT: u8 = Kind::Repeat as u8;

// 7 KIND: kind not 1 to 5.
impl TryFrom<u8> for Kind {
    type Error = Name;

    ghost try_from_gives = { IsKind };

    fn try_from(kind: u8) -> Result<Kind, Name> {
        match kind {
            INC => Ok(Kind::Inc),
            DEC => Ok(Kind::Dec),
            GO_TO => Ok(Kind::GoTo),
            CALL => Ok(Kind::Call),
            REPEAT => Ok(Kind::Repeat),
            _ => Err(Name::Kind),
        }
    }
}

// The four bytes of a line, as they stand.
#[derive(Clone, Copy, Debug, PartialEq, Eq)]
pub(crate) struct Fields {
    pub(crate) kind: u8,
    pub(crate) register: u8,
    pub(crate) operand: u16,
}

// What stands at line i, counted over the whole book.
pub(crate) fn fields_at(b: &[u8], routines: u16, i: usize) -> Fields
    requires { LineWithin b.now routines i }
    ensures { fields_told result ≡ fields_at b.now i }
{
    let at = HEADER_BYTES + ENTRY_BYTES * routines as usize + LINE_BYTES * i;
    let kind = b[at];
    let register = b[at + 1];
    let operand = two_byte(b, at + 2);
    Fields {
        kind,
        register,
        operand,
    }
}

// The table of kinds, read from the kind.
impl From<Fields> for Line {
    ghost from_gives = { λ f l. line_told l ≡ line_of (fields_told f) };

    fn from(f: Fields) -> Line {
        match f.kind {
            INC => Line::Inc(Reg(f.register)),
            DEC => Line::Dec(Reg(f.register), RoutineLine(f.operand)),
            GO_TO => Line::GoTo(RoutineLine(f.operand)),
            CALL => Line::Call(f.operand),
            _ => Line::Repeat(Reg(f.register), f.operand),
        }
    }
}

// Line j of a routine. (Over the slice and its counts: it asks less than a taken book.)
pub fn line_at(b: &[u8], counts: Counts, routine: u16, j: RoutineLine) -> Line
    requires tabled { Tabled b.now counts }
    requires routine_lt_routines { routine < counts.routines }
    requires j_bound { j.0 < count b.now routine }
    ensures { line_told result ≡ line_of (fields_in b.now routine j.0) }
{
    let first = table::first_line(b, routine);
    let i = first + j.0;
    Line::from(fields_at(b, counts.routines, i as usize))
}
