//! A child's space comes, with its parent's pages to be copied. Pages that were filled become due; no byte may be
//! copied yet.
ghost use Rattle.std.specs.Prelude.{◌≡◌, ◌+◌, ◌<◌, ◌≤◌, [], ◌++◌, length, map, IsSome, IfOk, OnOk};
ghost use Rattle.std.specs.VecDeque.{deque_len, deque_capacity};
ghost use Rattle.vm_facts.specs.declared.page.Page.TheVariants.{Data, Stack};
ghost use Rattle.vax_pte.specs.Words.{IsInRange};
ghost use Rattle.space_map.specs.Space.{place_in, with_place};
ghost use Rattle.flat_state.specs.Numbers.{AllBelow};
ghost use Rattle.kernel_model.specs.Asks.{HasSpace};
ghost use Rattle.kernel_tables.specs.Rising.{sids_of};
ghost use Rattle.kernel_tables.specs.View.{placement_of};
ghost use Rattle.kernel_tables.specs.Machine.{lists_of};
ghost use Rattle.kernel_tables.specs.Known.{Known};
ghost use Rattle.kernel_tables.specs.Changing.{Forked};
ghost use Rattle.kernel_tables.specs.Forking.{forked, copy_fill, copy_fills, space_fills, with_forked, AreInRange};

use crate::fill::DueFill;
use crate::tables::Tables;
use space_map::SpaceMap;
use std::alloc::Global;
use std::collections::VecDeque;
use vax_pte::Place;
use vm_facts::{NoMemory, Page};

// A child's page, whose parent's is in this place: as that, where it was never filled, and else due for a copy. `fills`
// has room for it.
fn plan_page(
    child: &mut SpaceMap,
    fills: &mut VecDeque<DueFill>,
    page: Page,
    from: Page,
    place: Place,
)
    requires of_child { IsSome (place_in child.old page) }
    requires in_range { IsInRange (forked place) }
    requires room { deque_len fills.old < deque_capacity fills.old }
    ensures child { child.new ≡ with_place child.old page (forked place) }
    ensures fills { fills.new.items ≡ fills.old.items ++ copy_fill page from place }
    ensures few { deque_len fills.new ≤ deque_len fills.old + 1 }
    ensures capacity { deque_capacity fills.new ≡ deque_capacity fills.old }
{
    match place {
        Place::Swap | Place::Frame { .. } => {
            child.set_place(page, Place::Zero);
            fills.push_back_reserved(DueFill::Copy {
                child: page,
                parent: from,
            });
        }
        Place::Zero | Place::Image(_) => child.set_place(page, place),
    }
}

// The pages of a child's data.
fn plan_data(child: &mut SpaceMap, fills: &mut VecDeque<DueFill>, parent: &SpaceMap)
    requires size { length child.old.«data» ≡ length parent.now.«data» }
    requires in_range { AreInRange parent.now.«data» }
    requires room { deque_len fills.old + length parent.now.«data» ≤ deque_capacity fills.old }
    ensures child { child.new ≡ record child.old { «data» = map forked parent.now.«data» } }
    ensures fills { fills.new.items ≡ fills.old.items ++ copy_fills (Data child.old.sid) (Data parent.now.sid) 0 parent.now.«data» }
    ensures few { deque_len fills.new ≤ deque_len fills.old + length parent.now.«data» }
    ensures capacity { deque_capacity fills.new ≡ deque_capacity fills.old }
{
    let (sid, from) = (child.sid(), parent.sid());
    for v in 0..parent.data_pages() {
        let (page, whose) = (Page::Data { sid, v }, Page::Data { sid: from, v });
        match parent.place(whose) {
            Some(place) => plan_page(child, fills, page, whose, place),
            None => unreachable!(),
        }
    }
}

// The pages of a child's stack.
fn plan_stack(child: &mut SpaceMap, fills: &mut VecDeque<DueFill>, parent: &SpaceMap)
    requires size { length child.old.stack ≡ length parent.now.stack }
    requires in_range { AreInRange parent.now.stack }
    requires room { deque_len fills.old + length parent.now.stack ≤ deque_capacity fills.old }
    ensures child { child.new ≡ record child.old { stack = map forked parent.now.stack } }
    ensures fills { fills.new.items ≡ fills.old.items ++ copy_fills (Stack child.old.sid) (Stack parent.now.sid) 0 parent.now.stack }
    ensures few { deque_len fills.new ≤ deque_len fills.old + length parent.now.stack }
    ensures capacity { deque_capacity fills.new ≡ deque_capacity fills.old }
{
    let (sid, from) = (child.sid(), parent.sid());
    for v in 0..parent.stack_pages() {
        let (page, whose) = (Page::Stack { sid, v }, Page::Stack { sid: from, v });
        match parent.place(whose) {
            Some(place) => plan_page(child, fills, page, whose, place),
            None => unreachable!(),
        }
    }
}

// The pages of a child's data and stack, data first.
fn plan_pages(child: &mut SpaceMap, fills: &mut VecDeque<DueFill>, parent: &SpaceMap)
    requires data_size { length child.old.«data» ≡ length parent.now.«data» }
    requires stack_size { length child.old.stack ≡ length parent.now.stack }
    requires data_in_range { AreInRange parent.now.«data» }
    requires stack_in_range { AreInRange parent.now.stack }
    requires room { deque_len fills.old + (length parent.now.«data» + length parent.now.stack) ≤ deque_capacity fills.old }
    ensures child { child.new ≡ with_forked child.old parent.now }
    ensures fills { fills.new.items ≡ fills.old.items ++ space_fills child.old.sid parent.now }
{
    plan_data(child, fills, parent);
    plan_stack(child, fills, parent);
}

impl Tables {
    /// Makes a space, of the next number, with a copy of this one's pages: those that were filled are due. Nothing is
    /// due before. Answers its number.
    pub fn fork_space(&mut self, alloc: Global, parent: u32) -> Result<u32, NoMemory>
        requires known { Known (lists_of self.old) }
        requires below { AllBelow self.old.next_sid (sids_of self.old.spaces) }
        requires there { HasSpace (placement_of (lists_of self.old)) parent }
        requires clear { self.old.fills.items ≡ [] }
        ensures number { IfOk result (λ sid. sid ≡ self.old.next_sid) }
        ensures forked { OnOk result (Forked self.old self.new parent) }
        ensures params { self.new.params ≡ self.old.params }
        ensures images { self.new.images ≡ self.old.images }
    {
        let sid = self.next_sid;
        let Some(space) = self.spaces.find(parent) else {
            unreachable!()
        };
        let (data, stack) = (space.data_pages(), space.stack_pages());
        let mut child = SpaceMap::new(alloc, sid, space.image(), *space.facts(), data, stack)?;
        self.fills.reserve((data + stack) as usize)?;
        plan_pages(&mut child, &mut self.fills, space);
        self.add_space(child)?;
        Ok(sid)
    }
}
