//! The bytes of an instruction, where they lie.
ghost use Rattle.std.specs.Prelude.{◌≡◌, OnOk, length, min, take};
ghost use Rattle.vax_code.specs.Reading.{Decodes, decoded};
ghost use Rattle.vax_code.specs.Valid.{HasOperands};
ghost use Rattle.user_step.specs.Code.{held_from};

use vax_code::{ByteSource, Fault, Front, Instr, decode_into};
use vm_facts::{ByteRead, Memory};

/// An instruction has at most so many bytes.
const MOST_BYTES: usize = 19;

/// Reads the instruction that some bytes begin with, as far as an instruction has bytes.
pub fn decode_first(bytes: &[u8], into: &mut Instr) -> Result<(), Fault>
    ensures value { Decodes result into.new (decoded (take (min (length bytes.now) 19) bytes.now)) }
    ensures sound { OnOk result (HasOperands into.new) }
{
    let most = bytes.len().min(MOST_BYTES);
    decode_into(&mut Front::of(&bytes[..most]), into)
}

/// The bytes from an address on, before the first that isn't there, and no more than an instruction has.
#[derive(Drop)]
pub struct Code<'a, M: Memory> {
    memory: &'a M,
    address: u32,
    room: usize,
}

impl<'a, M: Memory> Code<'a, M> {
    pub fn from(memory: &'a M, pc: u32) -> Code<'a, M>
        ensures memory { result.memory.now ≡ memory.now }
        ensures address { result.address ≡ pc }
        ensures room { result.room ≡ 19 }
    {
        Code {
            memory,
            address: pc,
            room: MOST_BYTES,
        }
    }
}

impl<M: Memory> ByteSource for Code<'_, M> {
    ghost left = { λ s. held_from (M.answers s.memory.now) s.address s.room };

    ghost room = { λ s. s.room };

    #[tactic(auto, unfolding(crate::specs::Code::held_from))]
    fn next(&mut self) -> Option<u8> {
        if self.room == 0 {
            return None;
        }
        match self.memory.read(self.address) {
            ByteRead::Is(byte) => {
                self.address = self.address.wrapping_add(1);
                self.room -= 1;
                Some(byte)
            }
            ByteRead::Miss | ByteRead::Below | ByteRead::Outside => None,
        }
    }

    fn room(&self) -> usize {
        self.room
    }
}
