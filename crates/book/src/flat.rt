// A flat book: a book with one routine, each of its lines INC, DEC or GO TO. It is written header first and then line by line.
ghost use Rattle.std.specs.Prelude.{◌≡◌, ◌+◌, ◌≤◌, [], ◌∷◌, length};
ghost use Rattle.scope.specs.Book.{two_bytes_each, line_bytes, fields_of, fields_at};
ghost use Rattle.scope.specs.Flattening.{most_flat_lines, bytes_of_fields, as_line, flat_header, flat_book_bytes};
ghost use Rattle.scope.specs.Ram.{TargetWithin};
ghost use Rattle.scope.specs.Running.{instruction_of};
ghost use Rattle.book.specs.Told.{fields_told, instruction_told};
ghost use Rattle.book.specs.Asked.{LineWithin};
ghost use Rattle.book.specs.Written.{with_bytes};

use super::header::{ENTRY_BYTES, HEADER_BYTES, LINE_BYTES, THE_FORMAT};
use super::lines::{DEC, Fields, GO_TO, INC, Reg, fields_at};
use super::numbers::{high, low, put_bytes};

// The header of a flat book, with the entry of its one routine.
pub const FLAT_HEADER_BYTES: usize = HEADER_BYTES + ENTRY_BYTES;

// A flat line number, kept apart from a routine's. It is wide, since the machine indexes by it at every step.
#[derive(Clone, Copy, Debug, PartialEq, Eq, PartialOrd, Ord)]
pub struct FlatLine(pub usize);

// A target is a flat line.
#[derive(Clone, Copy, Debug, PartialEq, Eq)]
pub enum Instruction {
    Inc(Reg),
    Dec(Reg, FlatLine),
    GoTo(FlatLine),
}

// Two numbers of two bytes each, put at once.
fn put_two(out: &mut [u8], at: usize, m: u16, n: u16)
    requires { at + 4 ≤ length out.old }
    ensures { out.new ≡ with_bytes out.old at (two_bytes_each (m ∷ n ∷ [])) }
{
    put_bytes(out, at, [low(m), high(m), low(n), high(n)]);
}

// Writes the header of a flat book of n lines, with the entry of its routine.
pub fn put_header(out: &mut [u8], n: u16)
    requires n_le_most_flat_lines { n ≤ most_flat_lines }
    requires flat_book_bytes_in_bounds { flat_book_bytes 0 ≤ length out.old }
    ensures { out.new ≡ with_bytes out.old 0 (flat_header n) }
{
    let lines_at = FLAT_HEADER_BYTES as u16;
    put_two(out, 0, THE_FORMAT, 1);
    put_two(out, 4, n, HEADER_BYTES as u16);
    put_two(out, 8, lines_at, lines_at + LINE_BYTES as u16 * n);
    put_two(out, HEADER_BYTES, 0, n);
}

// The table of kinds, for an instruction. (A function and no From, since it asks that a target fits two bytes.)
fn fields_of(x: Instruction) -> Fields
    requires { TargetWithin most_flat_lines (instruction_told x) }
    ensures { fields_told result ≡ fields_of (as_line (instruction_told x)) }
{
    match x {
        Instruction::Inc(r) => Fields {
            kind: INC,
            register: r.0,
            operand: 0,
        },
        Instruction::Dec(r, t) => Fields {
            kind: DEC,
            register: r.0,
            operand: t.0 as u16,
        },
        Instruction::GoTo(t) => Fields {
            kind: GO_TO,
            register: 0,
            operand: t.0 as u16,
        },
    }
}

// Writes flat line i.
pub fn put_line(out: &mut [u8], i: FlatLine, x: Instruction)
    requires target_within { TargetWithin most_flat_lines (instruction_told x) }
    requires line_bytes_in_bounds { flat_book_bytes i.0 + line_bytes ≤ length out.old }
    ensures { out.new ≡ with_bytes out.old (flat_book_bytes i.0) (bytes_of_fields (fields_of (as_line (instruction_told x)))) }
{
    let f = fields_of(x);
    let operand = f.operand;
    let at = FLAT_HEADER_BYTES + LINE_BYTES * i.0;
    put_bytes(out, at, [f.kind, f.register, low(operand), high(operand)]);
}

// In a flat book each line is INC, DEC or GO TO.
impl From<Fields> for Instruction {
    ghost from_gives = { λ f x. instruction_told x ≡ instruction_of (fields_told f) };

    fn from(f: Fields) -> Instruction {
        let target = f.operand as usize;
        match f.kind {
            INC => Instruction::Inc(Reg(f.register)),
            DEC => Instruction::Dec(Reg(f.register), FlatLine(target)),
            _ => Instruction::GoTo(FlatLine(target)),
        }
    }
}

// What stands at flat line i of a book with one routine. A target is read as a flat line here and nowhere else.
pub fn instruction_at(b: &[u8], i: FlatLine) -> Instruction
    requires { LineWithin b.now 1 i.0 }
    ensures { instruction_told result ≡ instruction_of (fields_at b.now i.0) }
{
    Instruction::from(fields_at(b, 1, i.0))
}
