//! The ring of transfers in flight. Only the oldest may complete or be abandoned. A device is called when a transfer
//! completes, never when it begins.
ghost use Rattle.std.specs.Prelude.{◌≡◌, ℕ, ◌+◌, ◌*◌, ◌<◌, ◌≤◌, ◌∷◌, ◌++◌, [], List, length, drop, slice_get, slice_set, IfOk, IfSome, IsNone, IsSome, Some, None, option_copied, ◌↔◌};
ghost use Rattle.std.specs.List.{list_any};
ghost use Rattle.io_edge.specs.Calls.{KeepsSwap, ReadsPages};
ghost use Rattle.vm_facts.specs.Swap.{most_in_flight};
ghost use Rattle.transfer_ring.specs.Beginning.{Begins, IsRefused};
ghost use Rattle.transfer_ring.specs.Ending.{EndsOldest, NotesAfter, NotesOldest, CountsPages, CountsReads, CountsWrites, Ends};
ghost use Rattle.transfer_ring.specs.Counting.{IsFlight, pages_of_all};
ghost use Rattle.transfer_ring.specs.Naming.{names_page_of, names_space, names_text};
ghost use Rattle.transfer_ring.specs.Slots.{in_flight, put_first, slot_at, IsSoundSlot};
ghost use Rattle.transfer_ring.specs.Sound.{AreReachable, HasSources, IsRead, IsReachable, IsWrite};

use crate::moving::{self, Filled};
use crate::transfer::Owner;
use crate::{Begun, Finished, Transfer, writing};
use circular_buffer::HeapCircularBuffer;
use io_edge::{Files, Moved, SwapDev};
use std::alloc::Global;
use std::marker::Model;
use std::mem;
use vm_facts::{MOST_IN_FLIGHT, NoMemory};

// A transfer has so many pages at most.
const MOST_PAGES: usize = 16;

/// The transfers in flight; contracts see them as a list, oldest first. At most 16 are.
///
/// Only `new` takes memory. Tokens can't be dropped, so a ring must be emptied and closed.
pub struct TransferRing {
    slots: Vec<Option<Transfer>>,

    // The used slots, the one of the oldest transfer first.
    order: HeapCircularBuffer<u32>,

    // The slots that aren't used.
    spare: Vec<u32>,

    // Room for the pages of a write that lie together, one behind another.
    room: Vec<[u8; 1024]>,
}

impl Model for TransferRing {
    ghost use Rattle.std.specs.Prelude.{List};
    ghost use Rattle.transfer_ring.specs.declared.transfer.Transfer.{Transfer};

    ghost Value = { List Transfer };

    ghost use Rattle.transfer_ring.specs.Fields.{transfers_of, IsRing};

    ghost view = { transfers_of };

    ghost invariant = { IsRing };
}

// Puts a transfer into an empty slot.
fn put(slots: &mut Vec<Option<Transfer>>, slot: u32, transfer: Transfer)
    requires below { slot < length slots.old.items }
    requires empty { slot_at slots.old.items slot ≡ None }
    ensures { slots.new.items ≡ slice_set slots.old.items slot (Some transfer) }
{
    match mem::replace(&mut slots[slot as usize], Some(transfer)) {
        None => {}
        _other => unreachable!(),
    }
}

// Takes the transfer out of a used slot.
fn take(slots: &mut Vec<Option<Transfer>>, slot: u32) -> Transfer
    requires { IsSome (slot_at slots.old.items slot) }
    ensures was { slot_at slots.old.items slot ≡ Some result }
    ensures after { slots.new.items ≡ slice_set slots.old.items slot None }
{
    match mem::replace(&mut slots[slot as usize], None) {
        Some(transfer) => transfer,
        _other => unreachable!(),
    }
}

// Ends slots that are all empty.
fn end_slots(mut slots: Vec<Option<Transfer>>)
    requires { (slot : _) → slot_at slots.items slot ≡ None }
{
    while let Some(slot) = slots.pop() {
        match slot {
            None => {}
            _other => unreachable!(),
        }
    }
    slots.destroy_empty();
}

impl TransferRing {
    /// A ring with no transfer in flight.
    pub fn new(alloc: Global) -> Result<TransferRing, NoMemory>
        ensures { IfOk result (λ ring. ring ≡ []) }
    {
        let room = vec![in alloc; [0; 1024]; MOST_PAGES]?;
        let order = HeapCircularBuffer::with_capacity(alloc, MOST_IN_FLIGHT as usize)?;
        let mut spare = Vec::with_capacity(alloc, MOST_IN_FLIGHT as usize)?;
        let mut slots = Vec::with_capacity(alloc, MOST_IN_FLIGHT as usize)?;
        for slot in 0..MOST_IN_FLIGHT {
            slots.push_reserved(None);
            spare.push_reserved(slot);
        }
        Ok(TransferRing {
            slots,
            order,
            spare,
            room,
        })
    }

    /// How many transfers are in flight.
    pub fn len(&self) -> u32
        ensures count { result ≡ length self.now }
        ensures most { result ≤ most_in_flight }
    {
        self.order.len() as u32
    }

    /// The transfer in flight at this place, 0 for the oldest. None where there are not so many.
    pub fn get(&self, place: u32) -> Option<&Transfer>
        ensures { option_copied result ≡ slice_get self.now place }
    {
        let slot = self.order.get(place as usize)?;
        in_slot(&self.slots, *slot)
    }

    // Puts a transfer after those in flight.
    fn begin(&mut self, t: Transfer) -> Begun
        requires { IsFlight t }
        ensures begun { Begins self.old t self.new result }
        ensures full { IsRefused result ↔ (length self.old ≡ most_in_flight) }
    {
        let Some(slot) = self.spare.pop() else {
            return Begun::RingFull(t);
        };
        put(&mut self.slots, slot, t);
        self.order.push_back(slot);
        Begun::Ok
    }

    /// Begins a read. RingFull comes exactly where 16 transfers are in flight.
    pub fn begin_read(&mut self, t: Transfer) -> Begun
        requires { IsRead t }
        ensures begun { Begins self.old t self.new result }
        ensures full { IsRefused result ↔ (length self.old ≡ most_in_flight) }
    {
        self.begin(t)
    }

    /// Begins a write. RingFull comes exactly where 16 transfers are in flight.
    pub fn begin_write(&mut self, t: Transfer) -> Begun
        requires { IsWrite t }
        ensures begun { Begins self.old t self.new result }
        ensures full { IsRefused result ↔ (length self.old ≡ most_in_flight) }
    {
        self.begin(t)
    }

    /// Takes the oldest transfer out, with no call of a device. None where none is in flight.
    pub fn abandon(&mut self) -> Option<Transfer>
        ensures oldest { result ≡ slice_get self.old 0 }
        ensures rest { self.new ≡ drop 1 self.old }
        ensures sources { IfSome result HasSources }
    {
        let slot = self.order.pop_front()?;
        let transfer = take(&mut self.slots, slot);
        self.spare.push_reserved(slot);
        Some(transfer)
    }

    /// Completes the oldest transfer by calls of a device, in rising order, up to the first that fails:
    /// one for each page that is read, while written pages that lie together are handed to it together
    /// (`write_some`). A fault hands the transfer back, with all its tokens; a read's may then have
    /// any bytes. Idle comes exactly where no transfer is in flight.
    pub fn complete_oldest<F: Files, D: SwapDev>(&mut self, files: &mut F, swap: &mut D) -> Finished
        requires { AreReachable (F.holds files.old) (D.blocks swap.old) self.old }
        ensures rest { self.new ≡ drop 1 self.old }
        ensures ends { EndsOldest self.old (F.holds files.old) (D.image swap.old) (D.image swap.new) result }
        ensures notes { NotesOldest self.old (F.notes files.old) (F.notes files.new) result }
        ensures files { ReadsPages F.Files files.old files.new }
        ensures swap { KeepsSwap D.SwapDev swap.old swap.new }
        ensures page_faults { CountsPages result (F.page_faults files.old) (F.page_faults files.new) }
        ensures read_faults { CountsReads result (D.read_faults swap.old) (D.read_faults swap.new) }
        ensures write_faults { CountsWrites result (D.write_faults swap.old) (D.write_faults swap.new) }
    {
        match self.abandon() {
            Some(transfer) => complete(transfer, &mut self.room, files, swap),
            None => Finished::Idle,
        }
    }

    // Whether a transfer in flight names a page of this owner.
    fn has_page_of(&self, owner: Owner) -> bool
        ensures { result ≡ list_any (names_page_of owner) self.now }
    {
        let (first, rest) = self.order.as_slices();
        is_any_of(&self.slots, first, owner) || is_any_of(&self.slots, rest, owner)
    }

    /// Whether a transfer in flight names a page in the data or the stack of this space.
    pub fn names(&self, sid: u32) -> bool
        ensures { result ≡ list_any (names_space sid) self.now }
    {
        self.has_page_of(Owner::Space(sid))
    }

    /// Whether a transfer in flight names a page in the text of this image.
    pub fn names_text(&self, image: u32) -> bool
        ensures { result ≡ list_any (names_text image) self.now }
    {
        self.has_page_of(Owner::Image(image))
    }

    /// How many pages are in flight, at most 256.
    pub fn pages(&self) -> u32
        ensures { result ≡ pages_of_all self.now }
    {
        let (first, rest) = self.order.as_slices();
        pages_in(&self.slots, first) + pages_in(&self.slots, rest)
    }

    /// Ends a ring with no transfer in flight.
    pub fn close(self)
        requires { self ≡ [] }
    {
        let TransferRing {
            slots,
            order,
            spare: _,
            room: _,
        } = self;
        order.destroy_empty();
        end_slots(slots);
    }
}

// The transfer in this slot.
fn in_slot(slots: &[Option<Transfer>], slot: u32) -> Option<&Transfer>
    ensures { option_copied result ≡ slot_at slots.now slot }
{
    match slots.get(slot as usize) {
        Some(Some(transfer)) => Some(transfer),
        _ => None,
    }
}

// How many pages the transfer in this slot has.
fn pages_at(slots: &[Option<Transfer>], slot: u32) -> u32
    requires { IsSoundSlot (slot_at slots.now slot) }
    ensures count { result ≡ pages_of_all (put_first (slot_at slots.now slot) []) }
    ensures few { result ≤ 16 }
{
    match slots.get(slot as usize) {
        Some(Some(transfer)) => transfer.pages(),
        _ => 0,
    }
}

// How many pages the transfers in these slots have.
fn pages_in(slots: &[Option<Transfer>], order: &[u32]) -> u32
    requires sound { (slot : ℕ) → IsSoundSlot (slot_at slots.now slot) }
    requires few { length order.now ≤ 16 }
    ensures count { result ≡ pages_of_all (in_flight slots.now order.now) }
    ensures most { result ≤ 16 * length order.now }
{
    match order {
        [] => 0,
        [first, rest @ ..] => pages_at(slots, *first) + pages_in(slots, rest),
    }
}

// Whether the transfer in this slot names a page of this owner.
fn is_slot_of(slots: &[Option<Transfer>], slot: u32, owner: Owner) -> bool
    ensures { result ≡ list_any (names_page_of owner) (put_first (slot_at slots.now slot) []) }
{
    match slots.get(slot as usize) {
        Some(Some(transfer)) => transfer.names(owner),
        _ => false,
    }
}

// Whether a transfer in one of these slots names a page of this owner.
fn is_any_of(slots: &[Option<Transfer>], order: &[u32], owner: Owner) -> bool
    ensures { result ≡ list_any (names_page_of owner) (in_flight slots.now order.now) }
{
    match order {
        [] => false,
        [first, rest @ ..] => is_slot_of(slots, *first, owner) || is_any_of(slots, rest, owner),
    }
}

// Completes a transfer that was taken out.
fn complete<F: Files, D: SwapDev>(
    transfer: Transfer,
    room: &mut [[u8; 1024]],
    files: &mut F,
    swap: &mut D,
) -> Finished
    requires sources { HasSources transfer }
    requires there { IsReachable (F.holds files.old) (D.blocks swap.old) transfer }
    ensures ends { Ends transfer (F.holds files.old) (D.image swap.old) (D.image swap.new) result }
    ensures notes { NotesAfter transfer (F.notes files.old) (F.notes files.new) result }
    ensures files { ReadsPages F.Files files.old files.new }
    ensures swap { KeepsSwap D.SwapDev swap.old swap.new }
    ensures page_faults { CountsPages result (F.page_faults files.old) (F.page_faults files.new) }
    ensures read_faults { CountsReads result (D.read_faults swap.old) (D.read_faults swap.new) }
    ensures write_faults { CountsWrites result (D.write_faults swap.old) (D.write_faults swap.new) }
{
    match transfer {
        Transfer::Read {
            demanded,
            mut parts,
        } => {
            let filled = moving::fill_all(&mut parts, files, swap);
            let transfer = Transfer::Read { demanded, parts };
            match filled {
                Filled::Done => Finished::Done(transfer),
                Filled::FileFault => Finished::FileFault(transfer),
                Filled::SwapFault => Finished::SwapReadFault(transfer),
            }
        }
        Transfer::Write { parts } => {
            let moved = writing::write_parts(&parts, room, swap);
            let transfer = Transfer::Write { parts };
            match moved {
                Moved::Done => Finished::Done(transfer),
                Moved::Failed => Finished::SwapWriteFault(transfer),
            }
        }
    }
}
