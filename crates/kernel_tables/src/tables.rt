//! The tables of the machine, and the moves of single frames and bytes. Nothing is promised of them but what each
//! call does. So `table_steps` must call in the right order.
ghost use Rattle.std.specs.Prelude.{◌≡◌, ℕ, ◌+◌, ◌<◌, ◌≤◌, ◌^◌, ◌∷◌, map, length, drop, true, Some, IsSome, IsTrue, slice_set};
ghost use Rattle.page_model.specs.Ownership.{owner_of, block_of};
ghost use Rattle.kernel_tables.specs.Moves.{RevivedPage, WroteByte, WroteBytes};
ghost use Rattle.vm_facts.specs.declared.page.Page.TheVariants.{Text as TextPage};
ghost use Rattle.vax_pte.specs.Words.{IsInRange};
ghost use Rattle.vax_pte.specs.declared.Place.TheVariants.{Frame as FramePlace};
ghost use Rattle.core_map.specs.Frames.{IsAway, HoldsNot};
ghost use Rattle.vm_facts.specs.Lists.{without};
ghost use Rattle.core_map.specs.Slots.{slot_at, slot_page, is_resident, with_byte, with_bytes, with_dirty};
ghost use Rattle.core_map.specs.declared.slot.Slot.TheVariants.{Free as FreeSlot, Resident as ResidentSlot, Away as AwaySlot};
ghost use Rattle.kernel_tables.specs.Rising.{IsHome};
ghost use Rattle.kernel_tables.specs.Shown.{placed};
ghost use Rattle.kernel_tables.specs.Steps.{left_place, evicted, revived, AreTextsHere};

use crate::fill::DueFill;
use crate::named::Named;
use crate::spaces::Spaces;
use core_map::{CoreMap, Whose};
use flat_state::number_of;
use frame_state::{Free, Resident};
use page_model::swap_book::{Owner, SwapBook};
use proc_table::ProcTable;
use std::collections::VecDeque;
use text_table::TextTable;
use transfer_ring::TransferRing;
use vax_pte::Place;
use vm_facts::{Page, Params};

/// All that the machine keeps but its journal.
pub struct Tables {
    pub params: Params,
    pub images: Vec<Named>,
    pub core: CoreMap,
    pub ring: TransferRing,
    pub spaces: Spaces,
    pub texts: TextTable,
    pub processes: ProcTable,
    pub book: SwapBook,
    pub fills: VecDeque<DueFill>,
    pub front: u32,
    pub back: u32,
    pub next_pid: u32,
    pub next_sid: u32,

    // How many pieces of swap were found last, for an entry that comes yet.
    pub found: usize,
}

// Where a page is whose free frame is taken: text that isn't saved is in its file.
fn left_place(texts: &TextTable, page: Page) -> Place
    requires { (image v : ℕ) → page ≡ TextPage image v → (1 ≤ image) × (image ≤ 16) × (v < 2048) }
    ensures place { result ≡ left_place texts.now page }
    ensures in_range { IsInRange result }
{
    match page {
        Page::Text { image, v } => {
            if texts.is_saved(image, v) {
                Place::Swap
            } else {
                Place::Image(v)
            }
        }
        _ => Place::Swap,
    }
}

/// Who holds the blocks of a page.
pub fn owner_of(page: Page) -> Owner
    ensures { result ≡ owner_of page }
{
    match page {
        Page::Data { sid, .. } => Owner::Data(sid),
        Page::Stack { sid, .. } => Owner::Stack(sid),
        Page::Text { image, .. } => Owner::Text(image),
    }
}

// The frame that holds a page leaves the free list, if it is there.
fn revive_frame(core: &mut CoreMap, page: Page, frame: u32, changed: bool)
    requires { slot_page (slot_at core.old.slots frame) ≡ Some page }
    ensures free { core.new.free ≡ without frame core.old.free }
    ensures slots { core.new.slots ≡ slice_set core.old.slots frame (revived (slot_at core.old.slots frame) page changed) }
{
    if let Whose::Free(_) = core.owner(frame) {
        let token = core.reclaim(frame);
        core.seat(token, page);
        core.set_dirty(frame, changed);
    }
}

// A byte of a resident frame is written, whose page is dirty then.
fn mark_byte(core: &mut CoreMap, frame: u32, at: u32, byte: u8)
    requires resident { IsTrue (is_resident (slot_at core.old.slots frame)) }
    requires below { frame < length core.old.slots }
    requires within { at < 1024 }
    ensures free { core.new.free ≡ core.old.free }
    ensures slots { core.new.slots ≡ slice_set core.old.slots frame (with_dirty (with_byte (slot_at core.old.slots frame) at byte) true) }
{
    core.put_byte(frame, at, byte);
    core.set_dirty(frame, true);
}

// The bytes of a resident frame from a place on are written, whose page is dirty then.
fn mark_bytes(core: &mut CoreMap, frame: u32, at: u32, bytes: &[u8])
    requires resident { IsTrue (is_resident (slot_at core.old.slots frame)) }
    requires below { frame < length core.old.slots }
    requires within { at + length bytes.now ≤ 1024 }
    ensures free { core.new.free ≡ core.old.free }
    ensures slots { core.new.slots ≡ slice_set core.old.slots frame (with_dirty (with_bytes (slot_at core.old.slots frame) at bytes.now) true) }
{
    core.put_bytes(frame, at, bytes);
    core.set_dirty(frame, true);
}

impl Tables {
    /// A byte of a valid page of data or stack is written, and the page is dirty. Its space stands at `index`.
    pub fn write_byte(&mut self, index: usize, page: Page, frame: u32, at: u32, byte: u8)
        requires home { IsHome self.old.spaces index page }
        requires resident { IsTrue (is_resident (slot_at self.old.core.slots frame)) }
        requires below { frame < length self.old.core.slots }
        requires within { at < 1024 }
        requires above { 1 ≤ frame }
        requires small { frame < 2 ^ 21 }
        ensures { WroteByte self.old self.new page frame at byte }
    {
        mark_byte(&mut self.core, frame, at, byte);
        let place = Place::Frame {
            f: frame,
            valid: true,
            changed: true,
        };
        self.spaces.set_place_at(index, page, place);
    }

    /// The bytes of a valid page of data or stack from a place on are written, and the page is dirty. Its space stands at
    /// `index`.
    pub fn write_bytes(&mut self, index: usize, page: Page, frame: u32, at: u32, bytes: &[u8])
        requires home { IsHome self.old.spaces index page }
        requires resident { IsTrue (is_resident (slot_at self.old.core.slots frame)) }
        requires below { frame < length self.old.core.slots }
        requires within { at + length bytes.now ≤ 1024 }
        requires above { 1 ≤ frame }
        requires small { frame < 2 ^ 21 }
        ensures { WroteBytes self.old self.new page frame at bytes.now }
    {
        mark_bytes(&mut self.core, frame, at, bytes);
        let place = Place::Frame {
            f: frame,
            valid: true,
            changed: true,
        };
        self.spaces.set_place_at(index, page, place);
    }

    /// Takes the first free frame, from the page that it still held.
    pub fn take_frame(&mut self) -> Free
        requires free { 0 < length self.old.core.free }
        requires texts { AreTextsHere self.old.core.slots }
        ensures free { self.old.core.free ≡ result.number ∷ self.new.core.free }
        ensures was { slot_at self.old.core.slots result.number ≡ FreeSlot result (slot_page (slot_at self.old.core.slots result.number)) }
        ensures slots { self.new.core.slots ≡ slice_set self.old.core.slots result.number AwaySlot }
        ensures away { IsAway self.new.core result.number }
        ensures spaces { self.new.spaces ≡ evicted self.old.texts (slot_page (slot_at self.old.core.slots result.number)) self.old.spaces }
        ensures rest { self.new ≡ record self.old { core = self.new.core; spaces = self.new.spaces } }
    {
        let Some((token, held)) = self.core.take_free() else {
            unreachable!()
        };
        if let Some(page) = held {
            let place = left_place(&self.texts, page);
            self.spaces.set_places(page, place);
        }
        token
    }

    /// A page is in a frame, and usable.
    pub fn seat(&mut self, token: Resident, page: Page, dirty: bool)
        requires away { IsAway self.old.core token.number }
        requires not_held { HoldsNot self.old.core page }
        requires small { token.number < 2 ^ 21 }
        ensures free { self.new.core.free ≡ self.old.core.free }
        ensures slots { self.new.core.slots ≡ slice_set self.old.core.slots token.number (ResidentSlot token page dirty) }
        ensures spaces { self.new.spaces ≡ map (placed page (FramePlace token.number true dirty)) self.old.spaces }
        ensures rest { self.new ≡ record self.old { core = self.new.core; spaces = self.new.spaces } }
    {
        let frame = token.number();
        self.core.seat(token, page);
        self.core.set_dirty(frame, dirty);
        let place = Place::Frame {
            f: frame,
            valid: true,
            changed: dirty,
        };
        self.spaces.set_places(page, place);
    }

    /// A page that a frame holds is usable again, and its frame leaves the free list if it is there.
    pub fn revive(&mut self, page: Page, frame: u32, changed: bool)
        requires holds { slot_page (slot_at self.old.core.slots frame) ≡ Some page }
        requires above { 1 ≤ frame }
        requires small { frame < 2 ^ 21 }
        ensures { RevivedPage self.old self.new page frame changed }
    {
        revive_frame(&mut self.core, page, frame, changed);
        let place = Place::Frame {
            f: frame,
            valid: true,
            changed,
        };
        self.spaces.set_places(page, place);
    }

    /// The first of the two blocks of a page.
    pub fn block_of(&self, page: Page) -> u32
        requires { IsSome (block_of self.now.book.holdings page) }
        ensures { Some result ≡ block_of self.now.book.holdings page }
    {
        match self.book.block_of(owner_of(page), number_of(page)) {
            Some(block) => block,
            None => unreachable!(),
        }
    }

    /// The first fill that is due, if there is one, is made.
    pub fn finish_fill(&mut self)
        ensures fills { self.new.fills.items ≡ drop 1 self.old.fills.items }
        ensures rest { self.new ≡ record self.old { fills = self.new.fills } }
    {
        let _fill = self.fills.pop_front();
    }
}
