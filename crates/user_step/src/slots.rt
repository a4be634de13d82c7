//! A memory over another one, in which what is written stays.
ghost use Rattle.std.specs.Prelude.{◌≡◌, None, [], ◌∷◌, ◌++◌, map, OnOk};
ghost use Rattle.user_step.specs.Slots.{has_slot, byte_in, stored};

use std::alloc::Global;
use vm_facts::{ByteRead, MayWrite, Memory, NoMemory};

/// A byte that may be written, and what was written there.
#[derive(Clone, Copy, Drop)]
pub struct Slot {
    pub address: u32,
    pub byte: Option<u8>,
}

/// Another memory, of which the bytes with a slot alone may be written: a write goes to the slot.
#[derive(Drop)]
pub struct DryMemory<'a, M: Memory> {
    memory: &'a M,
    slots: Vec<Slot>,
}

// Whether a byte has a slot.
fn has_slot(slots: &[Slot], address: u32) -> bool
    ensures { result ≡ has_slot slots.now address }
{
    for slot in slots {
        if slot.address == address {
            return true;
        }
    }
    false
}

// What was written to a byte, if it was.
fn byte_in(slots: &[Slot], address: u32) -> Option<u8>
    ensures { result ≡ byte_in slots.now address }
{
    for slot in slots {
        if slot.address == address {
            return slot.byte;
        }
    }
    None
}

// A byte goes to this slot, if it is for it.
fn store(slot: &mut Slot, address: u32, byte: u8)
    ensures { slot.new ≡ stored (record { address = address; byte = byte }) slot.old }
{
    if slot.address == address {
        slot.byte = Some(byte);
    }
}

// A byte goes to its slot.
fn store_each(slots: &mut Vec<Slot>, address: u32, byte: u8)
    ensures { slots.new.items ≡ map (stored (record { address = address; byte = byte })) slots.old.items }
{
    for slot in slots.iter_mut() {
        store(slot, address, byte);
    }
}

impl<M: Memory> Memory for DryMemory<'_, M> {
    ghost use Rattle.user_step.specs.Slots.{over, WroteSlots};

    ghost answers = { λ m. over (M.answers m.memory.now) m.slots.items };

    ghost wrote = { λ m ws n. WroteSlots (M.answers m.memory.now) m.slots.items ws (M.answers n.memory.now) n.slots.items };

    fn read(&self, address: u32) -> ByteRead {
        match byte_in(self.slots.as_slice(), address) {
            Some(byte) => ByteRead::Is(byte),
            None => self.memory.read(address),
        }
    }

    fn may_write(&self, address: u32) -> MayWrite {
        match self.memory.may_write(address) {
            MayWrite::May if !has_slot(self.slots.as_slice(), address) => MayWrite::Miss,
            answer => answer,
        }
    }

    fn write(&mut self, address: u32, byte: u8) {
        store_each(&mut self.slots, address, byte);
    }

    ghost use Rattle.user_step.specs.SlotLaws.{slots_none, slots_more, slots_after};

    ghost wrote_none = { λ m. slots_none (M.answers m.memory.now) m.slots.items };

    ghost wrote_more = { λ a b c xs ys. slots_more (M.answers a.memory.now) (M.answers b.memory.now)
        (M.answers c.memory.now) a.slots.items b.slots.items c.slots.items xs ys };

    ghost wrote_answers = { λ a b ws. slots_after (M.answers a.memory.now) (M.answers b.memory.now) a.slots.items b.slots.items ws };
}

impl<'a, M: Memory> DryMemory<'a, M> {
    /// A memory, none of whose bytes may be written.
    pub fn over(alloc: Global, memory: &'a M) -> DryMemory<'a, M>
        ensures memory { result.memory.now ≡ memory.now }
        ensures slots { result.slots.items ≡ [] }
    {
        DryMemory {
            memory,
            slots: Vec::new(alloc),
        }
    }

    /// One more byte may be written.
    pub fn grant(&mut self, address: u32) -> Result<(), NoMemory>
        ensures memory { self.new.memory.now ≡ self.old.memory.now }
        ensures slots { OnOk result (self.new.slots.items ≡ self.old.slots.items ++ record { address = address; byte = None } ∷ []) }
    {
        match self.slots.push(Slot {
            address,
            byte: None,
        }) {
            Ok(()) => Ok(()),
            Err(_) => Err(NoMemory),
        }
    }
}
