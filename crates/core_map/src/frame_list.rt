//! A list of frame numbers as links by frame number in both directions. The links run in a circle round the number 0,
//! which is no frame: `next[0]` is the first frame and `prev[0]` the last. It knows no tokens and no pages; a frame
//! may not be put in twice.
ghost use Rattle.std.specs.Prelude.{◌≡◌, ℕ, ◌+◌, ◌<◌, ◌≤◌, List, [], ◌∷◌, ◌++◌, length, IfOk, IsNone, IfNone, IfSome, ◌↔◌, ◌-◌, ◌^◌, slice_index};
ghost use Rattle.core_map.specs.Fresh.{first_frames as first_numbers};
ghost use Rattle.core_map.specs.Order.{place_from};
ghost use Rattle.vm_facts.specs.Lists.{times, without};

use std::alloc::{AllocError, Global};
use std::marker::Model;

#[derive(Drop)]
pub struct FrameList {
    next: Vec<u32>,
    prev: Vec<u32>,
    len: u32,
}

impl Model for FrameList {
    ghost use Rattle.core_map.specs.Order.{Order};

    ghost Value = { Order };

    ghost use Rattle.core_map.specs.Links.{order_of, IsLinked};

    ghost view = { order_of };

    ghost invariant = { IsLinked };
}

impl FrameList {
    /// An empty list of frames with numbers from 1 to below `bound`.
    pub fn new(alloc: Global, bound: usize) -> Result<FrameList, AllocError>
        requires above_zero { 0 < bound }
        requires nameable { bound ≤ 2 ^ 32 }
        ensures { IfOk result (λ l. (l.bound ≡ bound) × (l.frames ≡ [])) }
    {
        Ok(FrameList {
            next: vec![in alloc; 0; bound]?,
            prev: vec![in alloc; 0; bound]?,
            len: 0,
        })
    }

    /// Takes the first frame.
    pub fn pop_front(&mut self) -> Option<u32>
        ensures none { IsNone result ↔ (self.old.frames ≡ []) }
        ensures unchanged { IfNone result (self.new ≡ self.old) }
        ensures some { IfSome result (λ first. self.old.frames ≡ first ∷ self.new.frames) }
        ensures bound { self.new.bound ≡ self.old.bound }
    {
        let first = self.next[0];
        if first == 0 {
            return None;
        }
        self.remove(first);
        Some(first)
    }

    /// How many frames are in the list.
    pub fn len(&self) -> u32
        ensures { result ≡ length self.now.frames }
    {
        self.len
    }

    /// Puts a frame at the front.
    pub fn push_front(&mut self, frame: u32)
        requires above_zero { 0 < frame }
        requires below { frame < self.old.bound }
        requires absent { times frame self.old.frames ≡ 0 }
        ensures frames { self.new.frames ≡ frame ∷ self.old.frames }
        ensures bound { self.new.bound ≡ self.old.bound }
    {
        let at = frame as usize;
        let head = self.next[0];
        self.next[at] = head;
        self.prev[at] = 0;
        self.next[0] = frame;
        self.prev[head as usize] = frame;
        self.len += 1;
    }

    /// Puts a frame at the back.
    pub fn push_back(&mut self, frame: u32)
        requires above_zero { 0 < frame }
        requires below { frame < self.old.bound }
        requires absent { times frame self.old.frames ≡ 0 }
        ensures frames { self.new.frames ≡ self.old.frames ++ frame ∷ [] }
        ensures bound { self.new.bound ≡ self.old.bound }
    {
        let at = frame as usize;
        let tail = self.prev[0];
        self.next[tail as usize] = frame;
        self.prev[at] = tail;
        self.next[at] = 0;
        self.prev[0] = frame;
        self.len += 1;
    }

    /// Takes a frame out of the list.
    pub fn remove(&mut self, frame: u32)
        requires present { 0 < times frame self.old.frames }
        ensures frames { self.new.frames ≡ without frame self.old.frames }
        ensures bound { self.new.bound ≡ self.old.bound }
    {
        let at = frame as usize;
        let before = self.prev[at];
        let after = self.next[at];
        self.next[before as usize] = after;
        self.prev[after as usize] = before;
        self.len -= 1;
    }

    /// Moves a frame of the list to its front.
    pub fn move_to_front(&mut self, frame: u32)
        requires above_zero { 0 < frame }
        requires below { frame < self.old.bound }
        requires present { 0 < times frame self.old.frames }
        ensures frames { self.new.frames ≡ frame ∷ without frame self.old.frames }
        ensures bound { self.new.bound ≡ self.old.bound }
    {
        self.remove(frame);
        self.push_front(frame);
    }

    /// Writes the place of each frame of the list, from 1 on, at the frame's number.
    pub fn put_places(&self, places: &mut [u32])
        requires { self.now.bound ≤ length places.old }
        ensures length { length places.new ≡ length places.old }
        ensures listed { (frame : ℕ) → 0 < times frame self.now.frames → slice_index places.new frame ≡ place_from 1 frame self.now.frames }
        ensures others { (frame : ℕ) → times frame self.now.frames ≡ 0 → slice_index places.new frame ≡ slice_index places.old frame }
    {
        let mut at = 0;
        for before in 0..self.len {
            at = self.next[at as usize];
            places[at as usize] = before + 1;
        }
    }
}

/// The list of the frames from 1 to `frames`, rising.
pub(crate) fn first_frames(alloc: Global, frames: u32) -> Result<FrameList, AllocError>
    ensures { IfOk result (λ l. (l.bound ≡ frames + 1) × (l.frames ≡ first_numbers frames)) }
{
    let mut list = FrameList::new(alloc, frames as usize + 1)?;
    for before in 0..frames {
        list.push_back(before + 1);
    }
    Ok(list)
}
