//! Reads bytes, words and longwords at an address of any memory. The first refused byte is told.
ghost use Rattle.std.specs.Prelude.{◌≡◌, ◌<◌, ◌≤◌, ◌⊎◌, ℕ, IfOk, ◌^◌};
ghost use Rattle.user_vax.specs.Program.{run, Reads, Gives};
ghost use Rattle.user_vax.specs.Operands.{number_at};

use crate::refused::{Refused, SIGSEGV};
use byteorder::{ByteOrder, LittleEndian};
use vm_facts::{ByteRead, Memory};

/// The byte at an address.
pub fn read_byte<M: Memory>(memory: &M, address: u32) -> Result<u8, Refused>
    ensures { result ≡ run (M.answers memory.now) (Reads address (λ byte. Gives byte)) }
{
    match memory.read(address) {
        ByteRead::Is(byte) => Ok(byte),
        ByteRead::Miss => Err(Refused::Miss {
            address,
            write: false,
        }),
        ByteRead::Below => Err(Refused::Below { address }),
        ByteRead::Outside => Err(Refused::Signal(SIGSEGV)),
    }
}

/// The byte at an address, as a number.
#[tactic(auto, unfolding(crate::specs::Operands::number_at))]
fn read_byte_number<M: Memory>(memory: &M, address: u32) -> Result<u32, Refused>
    ensures { result ≡ run (M.answers memory.now) (number_at 1 address) }
{
    Ok(u32::from(read_byte(memory, address)?))
}

/// The word, one byte after another.
#[tactic(auto, unfolding(crate::specs::Operands::number_at))]
fn read_word_by_bytes<M: Memory>(memory: &M, address: u32) -> Result<u32, Refused>
    ensures { result ≡ run (M.answers memory.now) (number_at 2 address) }
{
    let low = read_byte(memory, address)?;
    let high = read_byte(memory, address.wrapping_add(1))?;
    Ok(u32::from(LittleEndian::read_u16(&[low, high])))
}

/// The little-endian word at an address, lowest address first.
pub fn read_word<M: Memory>(memory: &M, address: u32) -> Result<u32, Refused>
    ensures { result ≡ run (M.answers memory.now) (number_at 2 address) }
{
    let bytes = memory.ahead(address);
    if bytes.len() >= 2 {
        return Ok(u32::from(LittleEndian::read_u16(bytes)));
    }
    read_word_by_bytes(memory, address)
}

/// The longword, one byte after another.
#[tactic(auto, unfolding(crate::specs::Operands::number_at))]
fn read_long_by_bytes<M: Memory>(memory: &M, address: u32) -> Result<u32, Refused>
    ensures { result ≡ run (M.answers memory.now) (number_at 4 address) }
{
    let a = read_byte(memory, address)?;
    let b = read_byte(memory, address.wrapping_add(1))?;
    let c = read_byte(memory, address.wrapping_add(2))?;
    let d = read_byte(memory, address.wrapping_add(3))?;
    Ok(LittleEndian::read_u32(&[a, b, c, d]))
}

/// The little-endian longword at an address, lowest address first.
pub fn read_long<M: Memory>(memory: &M, address: u32) -> Result<u32, Refused>
    ensures { result ≡ run (M.answers memory.now) (number_at 4 address) }
{
    let bytes = memory.ahead(address);
    if bytes.len() >= 4 {
        return Ok(LittleEndian::read_u32(bytes));
    }
    read_long_by_bytes(memory, address)
}

/// The little-endian number of 1, 2 or 4 bytes at an address.
pub fn read_number<M: Memory>(memory: &M, size: u8, address: u32) -> Result<u32, Refused>
    requires { (size ≡ 1) ⊎ (size ≡ 2) ⊎ (size ≡ 4) }
    ensures { result ≡ run (M.answers memory.now) (number_at size address) }
{
    match size {
        1 => read_byte_number(memory, address),
        2 => read_word(memory, address),
        _ => read_long(memory, address),
    }
}
