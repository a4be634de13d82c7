//! What the map holds for one frame: its token, its page, and whether that is dirty. Other crates look at slots; only
//! map.rt changes one. A token that is taken out must come back or be handed on.
ghost use Rattle.std.specs.Prelude.{◌≡◌, ℕ, ◌+◌, ◌<◌, ◌≤◌, length, slice_set, IsTrue, Some, None, IfOk, ◌-◌, ◌^◌};
ghost use Rattle.core_map.specs.Fresh.{fresh_slots};
ghost use Rattle.core_map.specs.Slots.{slot_at, is_free, is_resident, with_byte, with_bytes, with_dirty};
ghost use Rattle.core_map.specs.declared.slot.Slot.TheVariants.{Free as FreeSlot, Resident as ResidentSlot, Away as AwaySlot};

use frame_state::{Free, Resident};
use std::alloc::Global;
use std::mem;
use vm_facts::{NoMemory, Page, overwrite};

/// Whose a frame is.
#[derive(Clone, Copy, Debug, PartialEq, Eq)]
pub enum Whose {
    /// On the free list, with the page that it still holds, if any.
    Free(Option<Page>),
    /// Off the list, and holds this page.
    Resident(Page),
    /// Its token isn't in the map.
    Away,
}

/// What the map has for a frame: its token, the page that it holds and, where it is resident, whether
/// that page was changed since it was last on swap.
pub enum Slot {
    Free {
        token: Free,
        page: Option<Page>,
    },
    Resident {
        token: Resident,
        page: Page,
        dirty: bool,
    },
    Away,
}

/// The slots of a new map.
pub(crate) fn fresh(alloc: Global, frames: u32) -> Result<Vec<Slot>, NoMemory>
    ensures { IfOk result (λ s. s.items ≡ fresh_slots frames) }
{
    let mut slots = Vec::with_capacity(alloc, frames as usize + 1)?;
    slots.push_reserved(Slot::Away);
    for f in 0..frames {
        match Free::make(alloc, f + 1) {
            Ok(token) => slots.push_reserved(Slot::Free { token, page: None }),
            Err(refused) => {
                end_all(slots);
                return Err(refused);
            }
        }
    }
    Ok(slots)
}

/// Takes the token of a free frame out of its slot.
pub(crate) fn take_free(slots: &mut Vec<Slot>, frame: u32) -> (Free, Option<Page>)
    requires { IsTrue (is_free (slot_at slots.old.items frame)) }
    ensures was { slot_at slots.old.items frame ≡ FreeSlot result.0 result.1 }
    ensures after { slots.new.items ≡ slice_set slots.old.items frame AwaySlot }
{
    match mem::replace(&mut slots[frame as usize], Slot::Away) {
        Slot::Free { token, page } => (token, page),
        _other => unreachable!(),
    }
}

/// Takes the token of a resident frame out of its slot.
pub(crate) fn take_resident(slots: &mut Vec<Slot>, frame: u32) -> (Resident, Page, bool)
    requires { IsTrue (is_resident (slot_at slots.old.items frame)) }
    ensures was { slot_at slots.old.items frame ≡ ResidentSlot result.0 result.1 result.2 }
    ensures after { slots.new.items ≡ slice_set slots.old.items frame AwaySlot }
{
    match mem::replace(&mut slots[frame as usize], Slot::Away) {
        Slot::Resident { token, page, dirty } => (token, page, dirty),
        _other => unreachable!(),
    }
}

/// Puts a token into the slot of a frame that is away.
pub(crate) fn put(slots: &mut Vec<Slot>, frame: u32, slot: Slot)
    requires below { frame < length slots.old.items }
    requires away { slot_at slots.old.items frame ≡ AwaySlot }
    ensures { slots.new.items ≡ slice_set slots.old.items frame slot }
{
    match mem::replace(&mut slots[frame as usize], slot) {
        Slot::Away => {}
        _other => unreachable!(),
    }
}

/// Changes one byte of a resident slot.
pub(crate) fn put_byte(slot: &mut Slot, at: u32, byte: u8)
    requires resident { IsTrue (is_resident slot.old) }
    requires within { at < 1024 }
    ensures { slot.new ≡ with_byte slot.old at byte }
{
    match slot {
        Slot::Resident { token, .. } => token.bytes_mut()[at as usize] = byte,
        _ => unreachable!(),
    }
}

/// Changes the bytes of a resident slot from a place on.
#[inline(always)]
pub(crate) fn put_bytes(slot: &mut Slot, at: u32, bytes: &[u8])
    requires resident { IsTrue (is_resident slot.old) }
    requires within { at + length bytes.now ≤ 1024 }
    ensures { slot.new ≡ with_bytes slot.old at bytes.now }
{
    match slot {
        Slot::Resident { token, .. } => overwrite(token.bytes_mut(), at as usize, bytes),
        _ => unreachable!(),
    }
}

/// Marks a resident slot.
pub(crate) fn set_dirty(slot: &mut Slot, mark: bool)
    requires { IsTrue (is_resident slot.old) }
    ensures { slot.new ≡ with_dirty slot.old mark }
{
    match slot {
        Slot::Resident { dirty, .. } => *dirty = mark,
        _ => unreachable!(),
    }
}

/// Ends every token.
pub(crate) fn end_all(mut slots: Vec<Slot>) {
    while let Some(slot) = slots.pop() {
        match slot {
            Slot::Free { token, page: _ } => token.retire(),
            Slot::Resident {
                token,
                page: _,
                dirty: _,
            } => token.release().retire(),
            Slot::Away => {}
        }
    }
    slots.destroy_empty();
}
