// The lines' tests, 7 to 10: each line is read, and then judged.
ghost use Rattle.std.specs.Prelude.{◌≡◌};
ghost use Rattle.scope.specs.Book.{register_wrong, target_wrong, callee_wrong, line_test, lines_verdict};
ghost use Rattle.book.specs.Told.{verdict_told, kind_told};
ghost use Rattle.book.specs.Limits.{limits, within};
ghost use Rattle.book.specs.Asked.{Tabled};

use super::header::Counts;
use super::lines::{Fields, Kind, fields_at};
use super::refusals::{Name, Refusal};
use super::table;

const LAST_REGISTER: u8 = 31;
// A row of limits has room for kinds 0 to 7.
const KINDS: usize = 8;

// What a line's register has to be below, and its operand.
#[derive(Clone, Copy, Debug, PartialEq, Eq)]
struct Limit {
    register: u32,
    operand: u32,
}

// 8 REGISTER: above 31, or not 0 where 0 stands, in GO TO and CALL.
fn register_wrong(kind: Kind, register: u8) -> bool
    ensures { result ≡ register_wrong (kind_told kind) register }
{
    match kind {
        Kind::GoTo | Kind::Call => register != 0,
        Kind::Inc | Kind::Dec | Kind::Repeat => LAST_REGISTER < register,
    }
}

// 9 TARGET: target past the end, in DEC and GO TO, or INC's operand not 0.
fn target_wrong(kind: Kind, operand: u16, count: u16) -> bool
    ensures { result ≡ target_wrong (kind_told kind) operand count }
{
    match kind {
        Kind::Inc => operand != 0,
        Kind::Dec | Kind::GoTo => count < operand,
        Kind::Call | Kind::Repeat => false,
    }
}

// 10 CALLEE: routine not below its own, in CALL and REPEAT.
fn callee_wrong(kind: Kind, operand: u16, caller: u16) -> bool
    ensures { result ≡ callee_wrong (kind_told kind) operand caller }
{
    match kind {
        Kind::Call | Kind::Repeat => caller <= operand,
        Kind::Inc | Kind::Dec | Kind::GoTo => false,
    }
}

// A line is tested 7, 8, 9, 10.
fn line_test(f: Fields, caller: u16, count: u16, place: u16) -> Result<(), Refusal>
    ensures { verdict_told result ≡ line_test f.kind f.register f.operand caller count place }
{
    let Ok(kind) = Kind::try_from(f.kind) else {
        return Err(Refusal::at(Name::Kind, place));
    };
    if register_wrong(kind, f.register) {
        return Err(Refusal::at(Name::Register, place));
    }
    if target_wrong(kind, f.operand, count) {
        return Err(Refusal::at(Name::Target, place));
    }
    if callee_wrong(kind, f.operand, caller) {
        return Err(Refusal::at(Name::Callee, place));
    }
    Ok(())
}

// What the limits of each kind are, for kinds 0 to 7, so that nothing of 7 to 10 is wrong with a line within them.
fn limits(caller: u16, count: u16) -> [Limit; KINDS]
    ensures { result ≡ limits caller count }
{
    let register = LAST_REGISTER as u32 + 1;
    let target = count as u32 + 1;
    let callee = caller as u32;
    // (No kind's limits: nothing is within them. An Option would ask a second time what the limits tell.)
    let none = Limit {
        register: 0,
        operand: 0,
    };
    [
        none,
        Limit {
            register,
            operand: 1,
        },
        Limit {
            register,
            operand: target,
        },
        Limit {
            register: 1,
            operand: target,
        },
        Limit {
            register: 1,
            operand: callee,
        },
        Limit {
            register,
            operand: callee,
        },
        none,
        none,
    ]
}

// Whether a line is within the limits of its kind. A good line takes as long whatever its kind. (It indexes: with `get` two goals stayed unproved.)
fn within(f: Fields, row: &[Limit; KINDS]) -> bool
    ensures { result ≡ within row.now f.kind f.register f.operand }
{
    let kind = f.kind as usize;
    if KINDS <= kind {
        return false;
    }
    let limit = &row[kind];
    if limit.register <= f.register as u32 {
        return false;
    }
    (f.operand as u32) < limit.operand
}

// A line within its limits passes; any other is tested, and so the number that is wrong is found.
fn line_verdict(
    f: Fields,
    caller: u16,
    count: u16,
    place: u16,
    row: &[Limit; KINDS],
) -> Result<(), Refusal>
    requires { row.now ≡ limits caller count }
    ensures { verdict_told result ≡ line_test f.kind f.register f.operand caller count place }
{
    if within(f, row) {
        return Ok(());
    }
    line_test(f, caller, count, place)
}

// The lowest bad line is the one named, found routine by routine. (It reads the slice: before these tests no book is taken, so there is no reader.)
// Document 01 has it left by a label with the place, and not by `?`.
pub(crate) fn lines_verdict(b: &[u8], counts: Counts) -> Result<(), Refusal>
    requires { Tabled b.now counts }
    ensures { verdict_told result ≡ lines_verdict b.now }
{
    let routines = counts.routines;
    'book: {
        for r in 0..routines {
            let first = table::first_line(b, r);
            let count = table::count(b, r);
            let row = limits(r, count);
            for j in 0..count {
                let place = first + j;
                let fields = fields_at(b, routines, place as usize);
                if let Err(x) = line_verdict(fields, r, count, place, &row) {
                    break 'book Err(x);
                }
            }
        }
        Ok(())
    }
}
