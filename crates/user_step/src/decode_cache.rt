//! A cache of decoded instructions, each beside the bytes that it was decoded from. It may only save time: what
//! stands in memory decides.
ghost use Rattle.std.specs.Prelude.{◌≡◌, ◌%◌, [], true, Ok, IfSome, take, slice_get};
ghost use Rattle.vm_facts.specs.Answers.{Answers};
ghost use Rattle.vax_code.specs.declared.instr.Decoded.TheVariants.{Is};
ghost use Rattle.vax_code.specs.Reading.{decoded};
ghost use Rattle.user_vax.specs.Program.{run};
ghost use Rattle.user_vax.specs.Instruction.{fetch};
ghost use Rattle.user_step.specs.FixedCode.{AreFixed, IsSameElsewhere, StandsAt};

use crate::decoding::{Decoding, decode};
use crate::fixed_code::FixedCode;
use vm_facts::Memory;

/// It holds so many instructions.
const PLACES: usize = 512;

/// A cache of decoded instructions, so that those of a loop are decoded once. An instruction has its place in it by the low bits of
/// its address. Its bytes are compared where it is looked up, so the cache is right for any memory, and whatever was written.
#[derive(Drop)]
pub struct DecodeCache {
    places: [Option<Decoding>; PLACES],
}

impl DecodeCache {
    /// No instruction so far.
    pub fn empty() -> DecodeCache {
        DecodeCache {
            places: [None; PLACES],
        }
    }

    // What is in the place of an address, where these bytes begin with the same sixteen.
    #[inline(always)]
    fn same(&self, address: u32, bytes: &[u8]) -> Option<&Decoding>
        ensures { IfSome result (λ found. decoded (take 16 bytes.now) ≡ Is found.now.instr) }
    {
        let first = bytes.first_chunk::<16>()?;
        match &self.places[address as usize % PLACES] {
            Some(decoding) if decoding.bytes == *first => Some(decoding),
            _ => None,
        }
    }

    /// The instruction at an address of a memory, where the cache has it.
    #[inline(always)]
    pub fn find<M: Memory>(&self, memory: &M, address: u32) -> Option<&Decoding>
        ensures { IfSome result (λ found. run (M.answers memory.now) (fetch 20 address []) ≡ Ok found.now.instr) }
    {
        let found = self.same(address, memory.ahead(address))?;
        Some(found)
    }

    /// Whether the cache has the instruction at an address of a memory.
    pub fn stands_at<M: Memory>(&self, memory: &M, address: u32) -> bool
        ensures { result ≡ true → StandsAt (M.answers memory.now) address (slice_get self.now.places (address % 512)) }
    {
        let Some(first) = memory.ahead(address).first_chunk::<16>() else {
            return false;
        };
        match &self.places[address as usize % PLACES] {
            Some(decoding) => decoding.bytes == *first,
            None => false,
        }
    }

    /// The instruction at an address where it is fixed. No byte is read.
    #[inline(always)]
    pub fn fixed_at(&self, fixed: &FixedCode, address: u32) -> Option<&Decoding>
        ensures { (memory : Answers) → AreFixed memory fixed.now self.now
            → IfSome result (λ found. run memory (fetch 20 address []) ≡ Ok found.now.instr) }
    {
        if fixed.has(address) {
            self.places[address as usize % PLACES].as_ref()
        } else {
            None
        }
    }

    /// Enters the instruction at an address of a memory, in the place of another one. One whose bytes don't lie together with as
    /// many more as make sixteen isn't entered.
    #[inline(never)]
    pub fn enter<M: Memory>(&mut self, memory: &M, address: u32)
        ensures { IsSameElsewhere address self.old self.new }
    {
        if let Some(first) = memory.ahead(address).first_chunk::<16>() {
            self.places[address as usize % PLACES] = decode(first);
        }
    }
}
