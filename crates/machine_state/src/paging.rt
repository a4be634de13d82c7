//! Copies of pages, writes that begin, and moves of the hands. No device may be called yet, and locked pages must
//! keep their frames.
ghost use Rattle.machine_state.specs.Going.{CanGoOn};
ghost use Rattle.machine_state.specs.Performing.{IsAtBound, Performs, StopsForRoom};
ghost use Rattle.std.specs.Prelude.{◌≡◌, ◌<◌, ◌≤◌, ◌+◌, ◌^◌, ◌∷◌, ◌++◌, [], ℕ, List, false, length, IsTrue, cond};
ghost use Rattle.vm_facts.specs.declared.entry.Entry.{Entry as Line};
ghost use Rattle.vm_facts.specs.declared.page.Page.TheVariants.{Text as TextPage};
ghost use Rattle.vm_facts.specs.declared.entry.Entry.TheVariants.{Hands};
ghost use Rattle.kernel_model.specs.Kernel.{copy_step, push_step, hand_step};
ghost use Rattle.core_map.specs.Slots.{slot_at, is_resident};
ghost use Rattle.table_steps.specs.Calls.{CanCopy, CanPush, CanMove};
ghost use Rattle.table_steps.specs.Conditions.{SameElsewhere, SameEverywhere};
ghost use Rattle.table_steps.specs.Joined.{IsFullFor};
ghost use Rattle.table_steps.specs.Launches.{CopiedFrame};
ghost use Rattle.table_steps.specs.KernelTablesShown.{entry_in, is_frame, frame_named};
ghost use Rattle.table_steps.specs.Steps.{AreTextsHere, dirty_shown};

use crate::machine::Machine;
use flat_state::number_of;
use frame_state::Resident;
use table_steps::kernel_tables::Tables;
use table_steps::{joining, landing, launching, notes};
use vm_facts::{Entry, Page, Stop};

// The first free frame gets the bytes of a page that is in a frame off the free list.
fn copy_frame(tables: &mut Tables, page: Page) -> Resident
    requires frame { IsTrue (is_frame (entry_in tables.old.spaces page)) }
    requires resident { IsTrue (is_resident (slot_at tables.old.core.slots (frame_named (entry_in tables.old.spaces page)))) }
    requires free { 0 < length tables.old.core.free }
    requires texts { AreTextsHere tables.old.core.slots }
    ensures { CopiedFrame tables.old tables.new (frame_named (entry_in tables.old.spaces page)) result }
{
    let (frame, _changed) = tables.spaces.frame_of(page);
    let mut copy = tables.take_frame().reclaim();
    copy.bytes_mut().copy_from_slice(tables.core.bytes(frame));
    copy
}

// How many pages are written for a page that is put out: so many where it is dirty, and else none.
fn written_of(tables: &Tables, page: Page, n: u32) -> u32
    requires { (image v : ℕ) → page ≡ TextPage image v → (1 ≤ image) × (image ≤ 16) × (v < 2048) }
    ensures { result ≡ cond (dirty_shown tables.now.spaces tables.now.texts page) n 0 }
{
    if landing::is_dirty(&tables.spaces, &tables.texts, page) {
        n
    } else {
        0
    }
}

impl Machine {
    /// The step of `Copy`: the child's page that is due first is filled from its parent's valid page, and is dirty.
    pub fn copy(&mut self, child: Page, parent: Page) -> Result<(), Stop>
        requires ready { CanGoOn self.old }
        requires can { CanCopy self.old.kernel.place child parent }
        ensures performs { Performs (copy_step self.old.kernel child) (λ k l. SameElsewhere k l child) result self.old self.new }
        ensures stops { StopsForRoom (IsAtBound self.old) result self.old self.new }
    {
        notes::make_room(
            &mut self.journal,
            &mut self.room,
            self.tables.params.journal,
        )?;
        self.tables.core.stands();
        let copy = copy_frame(&mut self.tables, parent);
        self.tables.seat(copy, child, true);
        self.tables.finish_fill();
        self.journal.push_reserved(Entry::Copy { page: child });
        Ok(())
    }

    /// The step of `Put`: a write of `n` dirty pages begins, or the frame of one clean page goes to the tail of the
    /// free list.
    pub fn push(&mut self, lo: Page, n: u32) -> Result<(), Stop>
        requires ready { CanGoOn self.old }
        requires can { CanPush self.old.kernel.place lo n }
        ensures performs { Performs (push_step self.old.kernel lo n) SameEverywhere result self.old self.new }
        ensures stops { StopsForRoom (IsAtBound self.old) result self.old self.new }
    {
        notes::make_room(
            &mut self.journal,
            &mut self.room,
            self.tables.params.journal,
        )?;
        let parts = notes::or_stop(launching::room_in(self.alloc, n))?;
        self.tables.core.stands();
        let written = written_of(&self.tables, lo, n);
        launching::put_out(&mut self.tables, parts, lo, number_of(lo), written);
        self.journal.push_reserved(Entry::Put { lo, n });
        Ok(())
    }

    /// One move of the hands, which pass over the locked pages, and one count of `Hands`. `lo` and `n` are the run of
    /// the write that the move begins; `n` is 0 where it begins none.
    pub fn hand(&mut self, locked: &[Page], lo: u32, n: u32) -> Result<(), Stop>
        requires ready { CanGoOn self.old }
        requires can { CanMove self.old.kernel.place locked.now lo n }
        requires fits { (count : ℕ) (before : List Line) → self.old.kernel.journal ≡ before ++ Hands count ∷ [] → count + 1 < 2 ^ 32 }
        ensures performs { Performs (hand_step self.old.kernel locked.now) SameEverywhere result self.old self.new }
        ensures stops { StopsForRoom (IsFullFor self.old.kernel.journal self.old.params.journal (Hands 1)) result self.old self.new }
    {
        joining::make_room_to_move(
            &mut self.journal,
            &mut self.room,
            self.tables.params.journal,
        )?;
        let parts = notes::or_stop(launching::room_in(self.alloc, n))?;
        self.tables.core.stands();
        launching::move_hands(&mut self.tables, locked, parts, lo, n);
        joining::add_move(&mut self.journal);
        Ok(())
    }
}
