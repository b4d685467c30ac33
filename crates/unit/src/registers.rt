// The registers are 64 bytes, two for each, low byte first.
ghost use Rattle.std.specs.Prelude.{◌≡◌, ◌+◌, ◌≤◌, length};
ghost use Rattle.scope.specs.Book.{two_bytes_each};
ghost use Rattle.scope.specs.Steps.{register_count};
ghost use Rattle.scope.specs.Page.{registers_length, registers_of};

use crate::machine::REGISTERS;
use book::numbers::{put_bytes, two_byte};

pub const REGISTERS_BYTES: usize = 2 * REGISTERS;

// The registers that the bytes say.
pub fn registers_of(bytes: &[u8]) -> [u16; REGISTERS]
    requires { length bytes.now ≡ registers_length }
    ensures { result ≡ registers_of bytes.now }
{
    let mut regs = [0u16; REGISTERS];
    for (j, reg) in regs.iter_mut().enumerate() {
        *reg = two_byte(bytes, 2 * j);
    }
    regs
}

// Writes the registers over the bytes.
pub fn put_registers(regs: &[u16], bytes: &mut [u8])
    requires regs_len { length regs.now ≡ register_count }
    requires bytes_len { length bytes.old ≡ registers_length }
    ensures { bytes.new ≡ two_bytes_each regs.now }
{
    for (j, reg) in regs.iter().enumerate() {
        put_bytes(bytes, 2 * j, reg.to_le_bytes());
    }
}
