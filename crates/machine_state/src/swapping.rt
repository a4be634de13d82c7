//! Processes go out and come in, by u pages that the device is called for here. A process that goes out must have no
//! page in a frame any more.
ghost use Rattle.std.specs.Prelude.{◌≡◌, ◌⊎◌, ◌≤◌, ◌↔◌, false, length, None, OnOk, OnErr, Err};
ghost use Rattle.kernel_model.specs.Kernel.{out_step};
ghost use Rattle.table_steps.specs.Calls.{CanGoOut, CanComeIn};
ghost use Rattle.table_steps.specs.Conditions.{HasStopped};
ghost use Rattle.table_steps.specs.Failing.{FailsFor};
ghost use Rattle.table_steps.specs.Swapping.{IsIn, WritesU, AsksU, SwapBehind, CallsNone, KeepsOut, KeepsIn};
ghost use Rattle.machine_state.specs.Going.{CanGoOn};
ghost use Rattle.machine_state.specs.Outside.{stop_of, MovesSwapPages};

use crate::machine::Machine;
use io_edge::{Moved, SwapDev};
use table_steps::kernel_tables::regs_in;
use table_steps::notes::{self, next_place};
use table_steps::u_pages::{move_record, no_regs, u_block, u_page_of};
use vm_facts::{Entry, Stop};

impl Machine {
    /// The step of `SwapOut`: the u page of a process is written, and the process is out. Its registers are in its u
    /// page alone then.
    pub fn u_out<D: SwapDev>(&mut self, swap: &mut D, pid: u32) -> Result<(), Stop>
        requires ready { CanGoOn self.old }
        requires area { self.old.params.swap_blocks ≤ D.blocks swap.old }
        requires can { CanGoOut self.old.kernel pid }
        ensures step { OnOk result (self.new.kernel ≡ out_step self.old.kernel pid) }
        ensures rest { OnOk result (self.new ≡ record self.old { kernel = self.new.kernel; room = None }) }
        ensures keeps { OnOk result (KeepsOut self.old.kernel self.new.kernel (D.image swap.old) (D.image swap.new)) }
        ensures swapped { OnOk result (WritesU self.old.kernel pid (D.image swap.old) (D.image swap.new)) }
        ensures spoiled { OnErr result (SwapBehind result self.old.kernel pid (D.image swap.old) (D.image swap.new)) }
        ensures uncalled { CallsNone result swap.old swap.new }
        ensures stop { OnErr result (HasStopped self.old self.new) }
        ensures cause { OnErr result ((result ≡ Err Stop.JournalFull) ⊎ ((result ≡ Err Stop.NoMemory) ⊎ (result ≡ Err Stop.SwapWriteFault))) }
        ensures failed { FailsFor result self.old self.new }
        ensures full { (result ≡ Err Stop.JournalFull) ↔ (self.old.params.journal ≤ length self.old.kernel.journal) }
        ensures outside { MovesSwapPages D.SwapDev (stop_of result) swap.old swap.new }
        ensures goes_on { OnOk result (CanGoOn self.new) }
    {
        notes::make_room(
            &mut self.journal,
            &mut self.room,
            self.tables.params.journal,
        )?;
        let page = u_page_of(&self.tables, pid);
        let block = u_block(&self.tables, pid);
        match swap.write(block, &page) {
            Moved::Done => {
                let since = next_place(self.journal.as_slice(), self.tables.params.journal);
                move_record(&mut self.tables.processes, pid, no_regs(), true, since);
                self.journal.push_reserved(Entry::SwapOut { pid });
                Ok(())
            }
            Moved::Failed => {
                self.stopped = true;
                Err(Stop::SwapWriteFault)
            }
        }
    }

    /// The step of `SwapIn`: the u page of a process that is out is read, which gives it its registers, and the
    /// process is in.
    pub fn u_in<D: SwapDev>(&mut self, swap: &mut D, pid: u32) -> Result<(), Stop>
        requires ready { CanGoOn self.old }
        requires area { self.old.params.swap_blocks ≤ D.blocks swap.old }
        requires can { CanComeIn self.old.kernel pid }
        ensures step { OnOk result (IsIn self.old.kernel self.new.kernel pid (D.image swap.old)) }
        ensures rest { OnOk result (self.new ≡ record self.old { kernel = self.new.kernel; room = None }) }
        ensures keeps { OnOk result (KeepsIn self.old.kernel self.new.kernel pid (D.image swap.old) (D.image swap.new)) }
        ensures asked { OnOk result (AsksU self.old.kernel pid (D.image swap.old) (D.image swap.new)) }
        ensures left { OnErr result (SwapBehind result self.old.kernel pid (D.image swap.old) (D.image swap.new)) }
        ensures uncalled { CallsNone result swap.old swap.new }
        ensures stop { OnErr result (HasStopped self.old self.new) }
        ensures cause { OnErr result ((result ≡ Err Stop.JournalFull) ⊎ ((result ≡ Err Stop.NoMemory) ⊎ (result ≡ Err Stop.SwapReadFault))) }
        ensures failed { FailsFor result self.old self.new }
        ensures full { (result ≡ Err Stop.JournalFull) ↔ (self.old.params.journal ≤ length self.old.kernel.journal) }
        ensures outside { MovesSwapPages D.SwapDev (stop_of result) swap.old swap.new }
        ensures goes_on { OnOk result (CanGoOn self.new) }
    {
        notes::make_room(
            &mut self.journal,
            &mut self.room,
            self.tables.params.journal,
        )?;
        let block = u_block(&self.tables, pid);
        let mut page = [0u8; 1024];
        match swap.read(block, &mut page) {
            Moved::Done => {
                let since = next_place(self.journal.as_slice(), self.tables.params.journal);
                let regs = regs_in(&page);
                move_record(&mut self.tables.processes, pid, regs, false, since);
                self.journal.push_reserved(Entry::SwapIn { pid });
                Ok(())
            }
            Moved::Failed => {
                self.stopped = true;
                Err(Stop::SwapReadFault)
            }
        }
    }
}
