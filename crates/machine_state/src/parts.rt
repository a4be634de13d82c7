//! A part of a move of the hands, alone, as a trace by another policy tells it. It may append no entry and move no
//! hand; `move_judge` alone asks for it.
ghost use Rattle.machine_state.specs.Going.{CanGoOn};
ghost use Rattle.std.specs.Prelude.{◌≡◌, None, OnOk, OnErr};
ghost use Rattle.kernel_model.specs.HandParts.{PartComes, part_step};
ghost use Rattle.table_steps.specs.Conditions.{KeepsFlat, SameEverywhere};

use crate::machine::Machine;
use kernel_model::HandPart;
use table_steps::parts;
use vm_facts::NoMemory;

impl Machine {
    /// A part of a move of the hands, alone: a page is made invalid, the write of a run begins, or the frame of a clean page goes to the tail of
    /// the free list. The hands stay where they are, and no entry is made. Only a write takes memory.
    pub fn part(&mut self, part: HandPart) -> Result<(), NoMemory>
        requires ready { CanGoOn self.old }
        requires can { PartComes self.old.kernel.place part }
        ensures step { OnOk result (self.new ≡ record self.old { kernel = part_step self.old.kernel part; room = None }) }
        ensures keeps { OnOk result (KeepsFlat self.old.kernel self.new.kernel) }
        ensures same { OnOk result (SameEverywhere self.old.kernel self.new.kernel) }
        ensures stop { OnErr result (self.new ≡ self.old) }
        ensures goes_on { CanGoOn self.new }
    {
        self.tables.core.stands();
        parts::make_part(&mut self.tables, self.alloc, part)?;
        self.room = None;
        Ok(())
    }
}
