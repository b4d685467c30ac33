// The table of refusals, and what a refusal carries.
ghost use Rattle.std.specs.Prelude.{◌≡◌};
ghost use Rattle.scope.specs.Refusals.{number, refusal};
ghost use Rattle.book.specs.Told.{name_told, refusal_told};

// The table: its names, and its numbers.
#[derive(Clone, Copy, Debug, PartialEq, Eq)]
pub enum Name {
    Short = 1,
    Format = 2,
    Counts = 3,
    Offsets = 4,
    Length = 5,
    Routine = 6,
    Kind = 7,
    Register = 8,
    Target = 9,
    Callee = 10,
    Depth = 11,
    NoRoutine = 12,
    TooLong = 13,
    NoRoom = 14,
    NotFlat = 15,
    Registers = 16,
    Line = 17,
    NotSteady = 18,
    Quote = 19,
}

// The number of a name in the table. (A function and no From, since its promise and its uniqueness are stated under this name.)
pub fn number(name: Name) -> u16
    ensures { result ≡ number (name_told name) }
{
    name as u16
}

// A refusal carries its place: the routine for 6, the line counted over the whole book for 7 to 10, else 0.
#[derive(Clone, Copy, Debug, PartialEq, Eq)]
pub struct Refusal {
    pub name: Name,
    pub place: u16,
}

impl Refusal {
    // With its place. Every refusal is made here.
    pub fn at(name: Name, place: u16) -> Refusal
        ensures { refusal_told result ≡ refusal (name_told name) place }
    {
        Refusal { name, place }
    }

    // Of the call as a whole: its place is 0.
    pub fn of(name: Name) -> Refusal
        ensures { refusal_told result ≡ refusal (name_told name) 0 }
    {
        Refusal::at(name, 0)
    }
}
