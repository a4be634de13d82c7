//! A memory of plain bytes, in which recorded instructions run.
ghost use Rattle.std.specs.Prelude.{◌≡◌, ◌^◌};
ghost use Rattle.std.proofs.Common.{refl, ap, sym, ◌∙◌};
ghost use Rattle.vm_facts.specs.Answers.{written};
ghost use Rattle.user_vax.specs.ArrayMemory.{array_answers, written-append};

use std::alloc::{AllocError, Global};
use vm_facts::{ByteRead, MayWrite, Memory};

/// All the bytes that the recorded instructions use lie below this address.
const END: usize = 0x1400;

/// A memory of bytes from address 0 on.
#[derive(Drop)]
pub struct Bytes {
    pub bytes: Vec<u8>,
}

/// A memory of zeros.
pub fn zeros(alloc: Global) -> Result<Bytes, AllocError> {
    Ok(Bytes {
        bytes: vec![in alloc; 0u8; END]?,
    })
}

impl Bytes {
    /// Puts a byte, where the address is in the memory.
    pub fn put(&mut self, address: u32, byte: u8) -> Option<()> {
        *self.bytes.get_mut(address as usize)? = byte;
        Some(())
    }
}

impl Memory for Bytes {
    ghost answers = { λ s. array_answers s.bytes.items (2 ^ 32) };

    ghost wrote = { λ s writes t. array_answers t.bytes.items (2 ^ 32) ≡ written (array_answers s.bytes.items (2 ^ 32)) writes };

    ghost wrote_none = { λ m. refl };

    ghost wrote_more = { λ a b c xs ys first second. second ∙ ap (λ m. written m ys) first
        ∙ sym (written-append (array_answers a.bytes.items (2 ^ 32)) xs ys) };

    ghost wrote_answers = { λ a b xs h. h };

    fn read(&self, address: u32) -> ByteRead {
        if (address as usize) < self.bytes.len() {
            ByteRead::Is(self.bytes[address as usize])
        } else {
            ByteRead::Outside
        }
    }

    fn may_write(&self, address: u32) -> MayWrite {
        if (address as usize) < self.bytes.len() {
            MayWrite::May
        } else {
            MayWrite::Outside
        }
    }

    #[tactic(auto, using(user_vax::proofs::ArrayLemmas::array_answers_set))]
    fn write(&mut self, address: u32, byte: u8) {
        self.bytes[address as usize] = byte;
    }
}
