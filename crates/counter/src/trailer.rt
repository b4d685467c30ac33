// What is read: a book and then 74 bytes (routine, 32 registers, two bytes each; budget, eight bytes; low byte first).
// The last 74 bytes are the trailer, whatever the header says.
ghost use Rattle.std.specs.Prelude.{◌≡◌};
ghost use Rattle.scope.specs.Shop.{routine_read, registers_read, budget_read};

use book::numbers::two_byte;
use unit::machine::REGISTERS;
use unit::registers::{REGISTERS_BYTES, registers_of};

const ROUTINE_BYTES: usize = 2;

const BUDGET_BYTES: usize = 8;

pub(crate) const TRAILER_BYTES: usize = ROUTINE_BYTES + REGISTERS_BYTES + BUDGET_BYTES;

pub(crate) fn routine_read(trailer: &[u8; TRAILER_BYTES]) -> u16
    ensures { result ≡ routine_read trailer.now }
{
    two_byte(trailer, 0)
}

#[tactic(auto, using(crate::proofs::LastBytes::registers_of_the_trailer))]
pub(crate) fn registers_read(trailer: &[u8; TRAILER_BYTES]) -> [u16; REGISTERS]
    ensures { result ≡ registers_read trailer.now }
{
    registers_of(&trailer[ROUTINE_BYTES..TRAILER_BYTES - BUDGET_BYTES])
}

#[tactic(auto, using(crate::proofs::LastBytes::budget_of_the_trailer))]
pub(crate) fn budget_read(trailer: &[u8; TRAILER_BYTES]) -> u64
    ensures { result ≡ budget_read trailer.now }
{
    let budget = trailer.last_chunk::<BUDGET_BYTES>().unwrap();
    u64::from_le_bytes(*budget)
}
