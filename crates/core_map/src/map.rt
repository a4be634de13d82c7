//! The map: slots, free list and text index, which move together. None of the three may be changed without the
//! others, so callers have only these calls.
ghost use Rattle.std.specs.Prelude.{◌≡◌, ℕ, ◌+◌, ◌<◌, ◌≤◌, List, [], ◌∷◌, ◌++◌, length, slice_index, slice_set, IsTrue, IfSome, IfNone, IsNone, ◌↔◌, None, Some, is_some, false, IfOk, ◌-◌, ◌^◌};
ghost use Rattle.core_map.specs.Fresh.{first_frames, fresh_slots};
ghost use Rattle.core_map.specs.Order.{place_from};
ghost use Rattle.core_map.specs.Frames.{IsAway, IsSoundMap, HoldsNot, TakesHead};
ghost use Rattle.vm_facts.specs.Lists.{times, without};
ghost use Rattle.core_map.specs.Slots.{ShowsOwner, slot_at, is_free, is_resident, is_slot_dirty, slot_owner, slot_page, token_of, with_byte, with_bytes, with_dirty};
ghost use Rattle.core_map.specs.declared.slot.Slot.TheVariants.{Free as FreeSlot, Resident as ResidentSlot, Away as AwaySlot};
ghost use Rattle.vm_facts.specs.declared.page.Page.TheVariants.{Text as TextPage};

use crate::frame_list::{self, FrameList};
use crate::slot::{self, Slot, Whose};
use crate::text_index::{self, TextIndex, TextKey};
use frame_state::{Free, Resident};
use std::alloc::Global;
use std::marker::Model;
use vm_facts::{NoMemory, Page};

/// The frames of the machine, numbered from 1. Contracts see the free list from its head to its tail,
/// and what the map has for each frame, its slot.
///
/// Tokens can't be dropped, so a map must be closed.
pub struct CoreMap {
    slots: Vec<Slot>,
    free: FrameList,
    text: TextIndex,
}

impl Model for CoreMap {
    ghost use Rattle.core_map.specs.Frames.{Frames};

    ghost Value = { Frames };

    ghost use Rattle.core_map.specs.Fields.{map_of, IsCoreMap};

    ghost view = { map_of };

    ghost invariant = { IsCoreMap };
}

impl CoreMap {
    /// Makes a map whose frames from 1 to `frames` are free, in rising order, with zeros and no page.
    pub fn new(alloc: Global, frames: u32) -> Result<CoreMap, NoMemory>
        ensures free { IfOk result (λ map. map.free ≡ first_frames frames) }
        ensures slots { IfOk result (λ map. map.slots ≡ fresh_slots frames) }
        ensures none_away { IfOk result (λ map. (frame : ℕ) → IsAway map frame → ⊥) }
    {
        let free = frame_list::first_frames(alloc, frames)?;
        let text = TextIndex::new(alloc, frames as usize + 1)?;
        let slots = slot::fresh(alloc, frames)?;
        Ok(CoreMap { slots, free, text })
    }

    /// How many frames there are.
    pub fn frames(&self) -> u32
        ensures count { result + 1 ≡ length self.now.slots }
        ensures sound { IsSoundMap self.now.free self.now.slots }
    {
        (self.slots.len() - 1) as u32
    }

    /// What is so of each map: its free list and its slots are sound.
    pub fn stands(&self)
        ensures { IsSoundMap self.now.free self.now.slots }
    {
        let _ = &self.slots;
    }

    /// How many frames are free.
    pub fn free_frames(&self) -> u32
        ensures { result ≡ length self.now.free }
    {
        self.free.len()
    }

    /// Writes the place of each free frame on the free list, 1 for its head, at the frame's number; what stands at other numbers stays.
    /// It takes one walk of the list.
    pub fn put_free_places(&self, places: &mut [u32])
        requires { length self.now.slots ≤ length places.old }
        ensures length { length places.new ≡ length places.old }
        ensures free { (frame : ℕ) → 0 < times frame self.now.free → slice_index places.new frame ≡ place_from 1 frame self.now.free }
        ensures others { (frame : ℕ) → times frame self.now.free ≡ 0 → slice_index places.new frame ≡ slice_index places.old frame }
    {
        self.free.put_places(places);
    }

    /// Takes the frame at the head of the free list, and tells the page that it still held; the map
    /// then holds that page nowhere. None where no frame is free.
    pub fn take_free(&mut self) -> Option<(Free, Option<Page>)>
        ensures none { IsNone result ↔ (self.old.free ≡ []) }
        ensures unchanged { IfNone result (self.new ≡ self.old) }
        ensures taken { IfSome result (λ taken. TakesHead self.old self.new taken.0 taken.1) }
        ensures away { IfSome result (λ taken. IsAway self.new taken.0.number) }
        ensures gone { IfSome result (λ taken. IfSome taken.1 (HoldsNot self.new)) }
    {
        let frame = self.free.pop_front()?;
        let (token, page) = slot::take_free(&mut self.slots, frame);
        text_index::leave(&mut self.text, frame, page);
        Some((token, page))
    }

    /// Puts a frame at the head of the free list, with no page.
    pub fn give_head(&mut self, token: Free)
        requires { IsAway self.old token.number }
        ensures free { self.new.free ≡ token.number ∷ self.old.free }
        ensures slots { self.new.slots ≡ slice_set self.old.slots token.number (FreeSlot token None) }
    {
        let frame = token.number();
        self.free.push_front(frame);
        slot::put(&mut self.slots, frame, Slot::Free { token, page: None });
    }

    /// Puts a frame at the tail of the free list; it still holds the page.
    pub fn give_tail(&mut self, token: Free, page: Page)
        requires away { IsAway self.old token.number }
        requires not_held { HoldsNot self.old page }
        ensures free { self.new.free ≡ self.old.free ++ token.number ∷ [] }
        ensures slots { self.new.slots ≡ slice_set self.old.slots token.number (FreeSlot token (Some page)) }
    {
        let frame = token.number();
        self.free.push_back(frame);
        text_index::enter(&mut self.text, frame, Some(page));
        slot::put(
            &mut self.slots,
            frame,
            Slot::Free {
                token,
                page: Some(page),
            },
        );
    }

    /// A free frame loses its page and moves to the head of the free list.
    pub fn forget(&mut self, frame: u32)
        requires { IsTrue (is_free (slot_at self.old.slots frame)) }
        ensures free { self.new.free ≡ frame ∷ without frame self.old.free }
        ensures slots { self.new.slots
            ≡ slice_set self.old.slots frame (FreeSlot (token_of (slot_at self.old.slots frame)) None) }
    {
        self.free.move_to_front(frame);
        let (token, page) = slot::take_free(&mut self.slots, frame);
        text_index::leave(&mut self.text, frame, page);
        slot::put(&mut self.slots, frame, Slot::Free { token, page: None });
    }

    /// The frame that holds page `v` of the image's text, free or resident. None where no frame of the
    /// map holds it; one that is away may.
    pub fn find_text(&self, image: u32, v: u32) -> Option<u32>
        ensures found { IfSome result (λ frame. slot_page (slot_at self.now.slots frame) ≡ Some (TextPage image v)) }
        ensures none { IfNone result (HoldsNot self.now (TextPage image v)) }
        ensures sound { IsSoundMap self.now.free self.now.slots }
    {
        self.text.find(TextKey { image, v })
    }

    /// Takes a free frame off the list, whose page is used again.
    pub fn reclaim(&mut self, frame: u32) -> Resident
        requires free { IsTrue (is_free (slot_at self.old.slots frame)) }
        requires holds { IsTrue (is_some (slot_page (slot_at self.old.slots frame))) }
        ensures token { result ≡ token_of (slot_at self.old.slots frame) }
        ensures number { result.number ≡ frame }
        ensures free { self.new.free ≡ without frame self.old.free }
        ensures slots { self.new.slots ≡ slice_set self.old.slots frame AwaySlot }
        ensures away { IsAway self.new frame }
        ensures gone { IfSome (slot_page (slot_at self.old.slots frame)) (HoldsNot self.new) }
    {
        self.free.remove(frame);
        let (token, page) = slot::take_free(&mut self.slots, frame);
        text_index::leave(&mut self.text, frame, page);
        token.reclaim()
    }

    /// Puts a frame in that holds the page, off the free list and clean.
    pub fn seat(&mut self, token: Resident, page: Page)
        requires away { IsAway self.old token.number }
        requires not_held { HoldsNot self.old page }
        ensures free { self.new.free ≡ self.old.free }
        ensures slots { self.new.slots ≡ slice_set self.old.slots token.number (ResidentSlot token page false) }
    {
        let frame = token.number();
        text_index::enter(&mut self.text, frame, Some(page));
        slot::put(
            &mut self.slots,
            frame,
            Slot::Resident {
                token,
                page,
                dirty: false,
            },
        );
    }

    /// Takes a resident frame out.
    pub fn lift(&mut self, frame: u32) -> Resident
        requires { IsTrue (is_resident (slot_at self.old.slots frame)) }
        ensures token { result ≡ token_of (slot_at self.old.slots frame) }
        ensures number { result.number ≡ frame }
        ensures free { self.new.free ≡ self.old.free }
        ensures slots { self.new.slots ≡ slice_set self.old.slots frame AwaySlot }
        ensures away { IsAway self.new frame }
        ensures gone { IfSome (slot_page (slot_at self.old.slots frame)) (HoldsNot self.new) }
    {
        let (token, page, _dirty) = slot::take_resident(&mut self.slots, frame);
        text_index::leave(&mut self.text, frame, Some(page));
        token
    }

    /// Lends the bytes of a resident frame.
    pub fn bytes(&self, frame: u32) -> &[u8; 1024]
        requires { IsTrue (is_resident (slot_at self.now.slots frame)) }
        ensures value { result.now ≡ (token_of (slot_at self.now.slots frame)).bytes }
        ensures whole { length result.now ≡ 1024 }
    {
        match &self.slots[frame as usize] {
            Slot::Resident { token, .. } => token.bytes(),
            _ => unreachable!(),
        }
    }

    /// Changes one byte of a resident frame, and leaves its mark as it is.
    pub fn put_byte(&mut self, frame: u32, at: u32, byte: u8)
        requires resident { IsTrue (is_resident (slot_at self.old.slots frame)) }
        requires within { at < 1024 }
        ensures free { self.new.free ≡ self.old.free }
        ensures slots { self.new.slots
            ≡ slice_set self.old.slots frame (with_byte (slot_at self.old.slots frame) at byte) }
    {
        slot::put_byte(&mut self.slots[frame as usize], at, byte);
    }

    /// Changes the bytes of a resident frame from a place on, and leaves its mark as it is.
    #[inline(always)]
    pub fn put_bytes(&mut self, frame: u32, at: u32, bytes: &[u8])
        requires resident { IsTrue (is_resident (slot_at self.old.slots frame)) }
        requires within { at + length bytes.now ≤ 1024 }
        ensures free { self.new.free ≡ self.old.free }
        ensures slots { self.new.slots
            ≡ slice_set self.old.slots frame (with_bytes (slot_at self.old.slots frame) at bytes.now) }
    {
        slot::put_bytes(&mut self.slots[frame as usize], at, bytes);
    }

    /// Whose the frame is. A number that is no frame's is away.
    pub fn owner(&self, frame: u32) -> Whose
        ensures owner { result ≡ slot_owner (slot_at self.now.slots frame) }
        ensures slot { ShowsOwner result (slot_at self.now.slots frame) }
        ensures sound { IsSoundMap self.now.free self.now.slots }
    {
        match self.slots.get(frame as usize) {
            Some(Slot::Free { page, .. }) => Whose::Free(*page),
            Some(Slot::Resident { page, .. }) => Whose::Resident(*page),
            Some(Slot::Away) | None => Whose::Away,
        }
    }

    /// Whether a resident frame is marked dirty.
    pub fn is_dirty(&self, frame: u32) -> bool
        requires { IsTrue (is_resident (slot_at self.now.slots frame)) }
        ensures { result ≡ is_slot_dirty (slot_at self.now.slots frame) }
    {
        match &self.slots[frame as usize] {
            Slot::Resident { dirty, .. } => *dirty,
            _ => unreachable!(),
        }
    }

    /// Marks a resident frame as dirty or clean.
    pub fn set_dirty(&mut self, frame: u32, dirty: bool)
        requires { IsTrue (is_resident (slot_at self.old.slots frame)) }
        ensures free { self.new.free ≡ self.old.free }
        ensures slots { self.new.slots
            ≡ slice_set self.old.slots frame (with_dirty (slot_at self.old.slots frame) dirty) }
    {
        slot::set_dirty(&mut self.slots[frame as usize], dirty);
    }

    /// Retires all frames but those that are away, whose tokens are their holders' to retire.
    pub fn close(self) {
        let CoreMap {
            slots,
            free: _,
            text: _,
        } = self;
        slot::end_all(slots);
    }
}
