//! The lines of the frames: whether each is free, holds a page, or is in a transfer.
#![tactic(auto, using(run_text::proofs::Putting::text_none))]

ghost use Rattle.std.specs.Prelude.{◌≡◌, ◌+◌, ◌<◌, ◌^◌, length, map, slice_get, slice_index};
ghost use Rattle.core_map.specs.Slots.{slot_owner, slot_at, is_slot_dirty};
ghost use Rattle.core_map.specs.declared.slot.Whose.TheVariants.{Resident as ResidentOwner};
ghost use Rattle.page_model.specs.Pages.{is_valid};
ghost use Rattle.page_model.specs.Placement.{state_of, IsFrame};
ghost use Rattle.page_model.specs.Ownership.{is_marked_dirty};
ghost use Rattle.machine_state.specs.Going.{IsRunning};
ghost use Rattle.machine_state.specs.Showing.{ShowsCore};
ghost use Rattle.machine_state.specs.View.{in_part, out_part, transfer_shown};
ghost use Rattle.run_text.specs.Text.{parts};
ghost use Rattle.run_text.specs.Writing.{PutsText};
ghost use Rattle.owner_lines.specs.Owners.{kept_text, moved_text, carrier, used_by, free_text, free_place, owner_text, frame_line, frame_lines};
ghost use Rattle.owner_lines.specs.FreePlaces.{AreFreePlaces};
ghost use Rattle.owner_lines.specs.Carried.{page_in, is_write, carried_in, carried_if, carried_from, carried_number, carried_text};

use crate::words::{put_if, put_page_if};
use core_map::{CoreMap, Whose};
use io_edge::{Failed, Sink};
use machine_state::Machine;
use run_text::{Writer, put_named, put_page};
use transfer_ring::{Inbound, Outbound, Transfer};
use vm_facts::{Page, PageState};

/// A page in a transfer: the transfer's number, whether it is a write, and the page.
#[derive(Clone, Copy, Debug, PartialEq, Eq, Drop)]
pub(crate) struct Carried {
    pub(crate) number: u32,
    pub(crate) is_write: bool,
    pub(crate) page: Page,
}

// The page that a read brings into a frame.
fn page_read(parts: &[Inbound], frame: u32) -> Option<Page>
    ensures { result ≡ page_in frame (map in_part parts.now) }
{
    match parts {
        [] => None,
        [first, rest @ ..] => {
            if first.token.number() == frame {
                Some(first.page)
            } else {
                page_read(rest, frame)
            }
        }
    }
}

// The page that is written from a frame.
fn page_written(parts: &[Outbound], frame: u32) -> Option<Page>
    ensures { result ≡ page_in frame (map out_part parts.now) }
{
    match parts {
        [] => None,
        [first, rest @ ..] => {
            if first.token.number() == frame {
                Some(first.page)
            } else {
                page_written(rest, frame)
            }
        }
    }
}

// The page that a transfer has in a frame.
fn page_at(transfer: &Transfer, frame: u32) -> Option<Page>
    ensures { result ≡ page_in frame (transfer_shown transfer.now).parts }
{
    match transfer {
        Transfer::Read { parts, .. } => page_read(parts.as_slice(), frame),
        Transfer::Write { parts } => page_written(parts.as_slice(), frame),
    }
}

// Whether a transfer is a write.
fn is_write(transfer: &Transfer) -> bool
    ensures { result ≡ is_write (transfer_shown transfer.now).errand }
{
    match transfer {
        Transfer::Read { .. } => false,
        Transfer::Write { .. } => true,
    }
}

// The page that a transfer of this number has in a frame.
fn carried_in(transfer: &Transfer, number: u32, frame: u32) -> Option<Carried>
    ensures { result ≡ carried_in number frame (transfer_shown transfer.now) }
{
    match page_at(transfer, frame) {
        Some(page) => Some(Carried {
            number,
            is_write: is_write(transfer),
            page,
        }),
        None => None,
    }
}

// The page that the transfer at a place has in a frame.
fn carried_at(machine: &Machine, place: u32, frame: u32) -> Option<Carried>
    requires { place + 1 < 2 ^ 32 }
    ensures { result ≡ carried_if (place + 1) frame (slice_get machine.now.kernel.place.transfers place) }
{
    match machine.transfer(place) {
        Some(transfer) => carried_in(transfer, place + 1, frame),
        None => None,
    }
}

// The first transfer that has a frame, and the page that it has there.
fn find_carrier(machine: &Machine, frame: u32) -> Option<Carried>
    ensures { result ≡ carried_from 1 frame machine.now.kernel.place.transfers }
{
    for place in 0..machine.in_flight() {
        if let Some(found) = carried_at(machine, place, frame) {
            return Some(found);
        }
    }
    None
}

// The number of a transfer that was found; 0 where none was.
fn carried_number(found: Option<Carried>) -> u32
    ensures { result ≡ carried_number found }
{
    match found {
        Some(carried) => carried.number,
        None => 0,
    }
}

/// The number of the transfer that has a frame, 1 for the oldest in flight; 0 where none has it.
pub fn carrier(machine: &Machine, frame: u32) -> u32
    ensures { result ≡ carrier machine.now.kernel.place frame }
{
    carried_number(find_carrier(machine, frame))
}

// Whether a page may be used.
fn is_valid(machine: &Machine, page: Page) -> bool
    requires { IsRunning machine.now }
    ensures { result ≡ is_valid (state_of machine.now.kernel.place page) }
{
    match machine.state_of(page) {
        Some(PageState::Valid(_)) => true,
        _ => false,
    }
}

// Whether the page of a frame off the free list is data or stack that swap hasn't.
fn is_unsaved(core: &CoreMap, frame: u32, page: Page) -> bool
    requires { slot_owner (slot_at core.now.slots frame) ≡ ResidentOwner page }
    ensures { result ≡ is_marked_dirty page (is_slot_dirty (slot_at core.now.slots frame)) }
{
    match page {
        Page::Data { .. } | Page::Stack { .. } => core.is_dirty(frame),
        Page::Text { .. } => false,
    }
}

// Puts a page with the word for its state, and whether it is dirty.
fn put_kept<S: Sink>(
    out: &mut Writer<'_, S>,
    word: &[u8],
    page: &Page,
    dirty: bool,
) -> Result<(), Failed>
    ensures { PutsText S.Sink result (kept_text word.now page.now dirty) out.old out.new }
{
    out.put(word)?;
    put_page(out, page)?;
    put_if(out, dirty, b" dirty")
}

// Puts a page with the word for its state, and the number of its transfer.
fn put_moved<S: Sink>(
    out: &mut Writer<'_, S>,
    word: &[u8],
    number: u32,
    page: &Page,
) -> Result<(), Failed>
    ensures { PutsText S.Sink result (moved_text word.now number page.now) out.old out.new }
{
    put_named(out, word, &[number])?;
    put_page(out, page)
}

// Puts the place of a frame on the free list, and the page that it still holds.
fn put_free<S: Sink>(out: &mut Writer<'_, S>, place: u32, page: Option<Page>) -> Result<(), Failed>
    ensures { PutsText S.Sink result (free_text place page) out.old out.new }
{
    put_named(out, b" free", &[place])?;
    put_page_if(out, page)
}

// Puts what is said of the page in a frame that is neither free nor in a transfer.
fn put_used<S: Sink>(
    out: &mut Writer<'_, S>,
    machine: &Machine,
    core: &CoreMap,
    frame: u32,
    page: Page,
) -> Result<(), Failed>
    requires running { IsRunning machine.now }
    requires shows { ShowsCore machine.now.kernel.place core.now }
    requires frame { IsFrame machine.now.kernel.place frame }
    requires owner { slot_owner (slot_at core.now.slots frame) ≡ ResidentOwner page }
    ensures { PutsText S.Sink result (used_by machine.now.kernel.place page (state_of machine.now.kernel.place page)) out.old out.new }
{
    let dirty = is_unsaved(core, frame, page);
    if is_valid(machine, page) {
        put_kept(out, b" valid", &page, dirty)
    } else {
        put_kept(out, b" invalid", &page, dirty)
    }
}

// Puts what is said of a frame that a transfer has.
fn put_carried<S: Sink>(out: &mut Writer<'_, S>, found: Option<Carried>) -> Result<(), Failed>
    ensures { PutsText S.Sink result (carried_text found) out.old out.new }
{
    match found {
        Some(carried) => {
            if carried.is_write {
                put_moved(out, b" write", carried.number, &carried.page)
            } else {
                put_moved(out, b" read", carried.number, &carried.page)
            }
        }
        None => Ok(()),
    }
}

// The place that is written at a frame's number.
fn place_of(places: &[u32], frame: u32) -> u32
    requires { frame < length places.now }
    ensures { result ≡ slice_index places.now frame }
{
    places[frame as usize]
}

// Puts what is said of a frame, by the places of the free ones.
fn put_owner<S: Sink>(
    out: &mut Writer<'_, S>,
    machine: &Machine,
    core: &CoreMap,
    places: &[u32],
    frame: u32,
) -> Result<(), Failed>
    requires running { IsRunning machine.now }
    requires shows { ShowsCore machine.now.kernel.place core.now }
    requires places { AreFreePlaces machine.now.kernel.place places.now }
    requires frame { IsFrame machine.now.kernel.place frame }
    ensures { PutsText S.Sink result (owner_text machine.now.kernel.place frame (free_place machine.now.kernel.place frame)) out.old out.new }
{
    match core.owner(frame) {
        Whose::Free(page) => put_free(out, place_of(places, frame), page),
        Whose::Resident(page) => put_used(out, machine, core, frame, page),
        Whose::Away => put_carried(out, find_carrier(machine, frame)),
    }
}

// Puts the line of a frame.
fn put_frame<S: Sink>(
    out: &mut Writer<'_, S>,
    machine: &Machine,
    core: &CoreMap,
    places: &[u32],
    frame: u32,
) -> Result<(), Failed>
    requires running { IsRunning machine.now }
    requires shows { ShowsCore machine.now.kernel.place core.now }
    requires places { AreFreePlaces machine.now.kernel.place places.now }
    requires frame { IsFrame machine.now.kernel.place frame }
    ensures { PutsText S.Sink result (frame_line machine.now.kernel.place frame) out.old out.new }
{
    put_named(out, b"frame", &[frame])?;
    put_owner(out, machine, core, places, frame)?;
    out.put(b"\n")
}

// Puts the lines of all frames, by the places of the free ones.
fn put_placed<S: Sink>(
    out: &mut Writer<'_, S>,
    machine: &Machine,
    core: &CoreMap,
    places: &[u32],
) -> Result<(), Failed>
    requires running { IsRunning machine.now }
    requires shows { ShowsCore machine.now.kernel.place core.now }
    requires places { AreFreePlaces machine.now.kernel.place places.now }
    ensures { PutsText S.Sink result (frame_lines machine.now.kernel.place) out.old out.new }
{
    for before in 0..core.frames() {
        put_frame(out, machine, core, places, before + 1)?;
    }
    Ok(())
}

// The places of the free frames, each at its frame's number.
fn free_places(machine: &Machine, core: &CoreMap) -> [u32; 4097]
    requires running { IsRunning machine.now }
    requires shows { ShowsCore machine.now.kernel.place core.now }
    ensures { AreFreePlaces machine.now.kernel.place result }
{
    let mut places = [0u32; 4097];
    core.put_free_places(&mut places);
    places
}

/// Puts the lines of all frames, from 1 on.
pub(crate) fn put_frames<S: Sink>(out: &mut Writer<'_, S>, machine: &Machine) -> Result<(), Failed>
    requires { IsRunning machine.now }
    ensures { PutsText S.Sink result (frame_lines machine.now.kernel.place) out.old out.new }
{
    let core = machine.core();
    let places = free_places(machine, core);
    put_placed(out, machine, core, &places)
}
