//! Longwords that are read one after another, of bytes that lie together.
ghost use Rattle.std.specs.Prelude.{◌≡◌};
ghost use Rattle.user_vax.specs.Program.{run};
ghost use Rattle.user_vax.specs.Operands.{number_at};
ghost use Rattle.vm_facts.specs.Ahead.{AreAhead};

use byteorder::{ByteOrder, LittleEndian};
use user_vax::{Refused, read_long};
use vm_facts::Memory;

/// Bytes that lie together in a memory, from an address on.
#[derive(Clone, Copy, Drop)]
pub struct Window<'a> {
    pub from: u32,
    pub held: &'a [u8],
}

/// The longword at an address, of the bytes of a window where they hold it.
#[inline(always)]
pub fn read_long_in<M: Memory>(memory: &M, window: Window<'_>, address: u32) -> Result<u32, Refused>
    requires { AreAhead (M.answers memory.now) window.from window.held.now }
    ensures { result ≡ run (M.answers memory.now) (number_at 4 address) }
{
    let at = address.wrapping_sub(window.from) as usize;
    if at + 4 <= window.held.len() {
        return Ok(LittleEndian::read_u32(&window.held[at..]));
    }
    read_long(memory, address)
}
