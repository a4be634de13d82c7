//! Where instructions of a cache stand in bytes that stay.
ghost use Rattle.std.specs.Prelude.{◌≡◌, ◌≢◌, ◌%◌, true, false, None, Some, slice_get};
ghost use Rattle.vm_facts.specs.Answers.{Answers};
ghost use Rattle.user_step.specs.FixedCode.{AreFixed, Remembers, StayFrom};
ghost use Rattle.user_step.specs.declared.decode_cache.DecodeCache.{DecodeCache};

use crate::decode_cache::DecodeCache;
use vm_facts::{MayWrite, Memory};

/// So many addresses are remembered at most.
const PLACES: usize = 512;

/// Addresses at which instructions of a cache stand in bytes that may not be written. Such bytes stay while instructions are carried
/// out over the memory, so they are compared once. An address has its place among them by its low bits.
#[derive(Drop)]
pub struct FixedCode {
    at: [Option<u32>; PLACES],
}

/// Whether the byte at an address may be written.
fn is_writable<M: Memory>(memory: &M, address: u32) -> bool
    ensures { result ≡ false → (M.answers memory.now).may_write address ≢ MayWrite.May }
{
    matches!(memory.may_write(address), MayWrite::May)
}

/// Whether none of sixteen bytes from an address on may be written.
#[tactic(auto, using(crate::proofs::StaysFixed::stay_more))]
fn stay_from<M: Memory>(memory: &M, address: u32) -> bool
    ensures { result ≡ true → StayFrom (M.answers memory.now) address }
{
    for count in 0..16u32 {
        if is_writable(memory, address.wrapping_add(count)) {
            return false;
        }
    }
    true
}

impl FixedCode {
    /// No address so far.
    #[tactic(auto, using(crate::proofs::StaysFixed::none_fixed))]
    pub fn none() -> FixedCode
        ensures { (memory : Answers) (cache : DecodeCache) → AreFixed memory result cache }
    {
        FixedCode { at: [None; PLACES] }
    }

    /// Whether an address is remembered.
    #[inline(always)]
    pub fn has(&self, address: u32) -> bool
        ensures { result ≡ true → Remembers self.now address }
    {
        match self.at[address as usize % PLACES] {
            Some(own) => own == address,
            None => false,
        }
    }

    /// No address is remembered in the place of this one.
    #[tactic(auto, using(crate::proofs::StaysFixed::emptied, crate::proofs::StaysFixed::empty_there))]
    pub fn forget(&mut self, address: u32)
        ensures kept { (memory : Answers) (cache : DecodeCache) → AreFixed memory self.old cache → AreFixed memory self.new cache }
        ensures gone { slice_get self.new.at (address % 512) ≡ Some None }
    {
        self.at[address as usize % PLACES] = None;
    }

    /// Remembers an address at which an instruction of the cache stands in bytes that stay.
    #[inline(never)]
    #[tactic(auto, using(crate::proofs::StaysFixed::fixed_more))]
    pub fn remember<M: Memory>(&mut self, cache: &DecodeCache, memory: &M, address: u32)
        requires { AreFixed (M.answers memory.now) self.old cache.now }
        ensures { AreFixed (M.answers memory.now) self.new cache.now }
    {
        if stay_from(memory, address) && cache.stands_at(memory, address) {
            self.at[address as usize % PLACES] = Some(address);
        }
    }
}
