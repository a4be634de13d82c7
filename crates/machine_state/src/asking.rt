//! Pieces of swap are found for the next entry of a process. No entry is appended: what was found waits until that
//! entry takes it.
ghost use Rattle.machine_state.specs.Going.{CanGoOn, IsRunning};
ghost use Rattle.machine_state.specs.Performing.{IsAtBound, StopsForRoom};
ghost use Rattle.std.specs.Prelude.{◌≡◌, ◌<◌, true, false, length, None, IfOk, OnOk, OnErr, Ok, Err};
ghost use Rattle.vm_facts.specs.declared.entry.Entry.TheVariants.{Refused};
ghost use Rattle.swap_book.specs.Holdings.{Holdings};
ghost use Rattle.kernel_model.specs.Kernel.{note_step};
ghost use Rattle.swap_wants.specs.Wants.{CanAsk, found_for, fits_for};
ghost use Rattle.table_steps.specs.Conditions.{HasStopped, KeepsFlat, SameEverywhere};

use crate::machine::Machine;
use swap_wants::{Want, find_all};
use table_steps::notes;
use vm_facts::{Entry, Stop};

impl Machine {
    /// Whether the pieces with which each owner holds its blocks find their places. Nothing changes.
    pub fn fits(&mut self, wants: &[Want]) -> Result<bool, Stop>
        requires ready { CanGoOn self.old }
        requires can { CanAsk self.old.kernel.holdings wants.now }
        ensures answer { IfOk result (λ fits. fits ≡ fits_for self.old.params.swap_blocks self.old.kernel.holdings wants.now) }
        ensures same { self.new ≡ self.old }
        ensures stop { OnErr result (HasStopped self.old self.new) }
        ensures cause { OnErr result (result ≡ Err Stop.NoMemory) }
        ensures goes_on { CanGoOn self.new }
    {
        let found = find_all(&mut self.tables.book, wants, false);
        notes::or_stop(found)
    }

    /// Finds the pieces with which each owner holds its blocks, for the next entry of a process, and appends no entry. False
    /// comes exactly where they find no place: the holdings are then as before, and `Refused` is the entry.
    pub fn ask(&mut self, pid: u32, wants: &[Want]) -> Result<bool, Stop>
        requires ready { CanGoOn self.old }
        requires can { CanAsk self.old.kernel.holdings wants.now }
        ensures answer { IfOk result (λ fits. fits ≡ fits_for self.old.params.swap_blocks self.old.kernel.holdings wants.now) }
        ensures found { result ≡ Ok true → (hs : Holdings) × (found_for self.old.params.swap_blocks self.old.kernel.holdings wants.now ≡ Ok hs)
            × (self.new ≡ record self.old { kernel = record self.old.kernel { holdings = hs } }) }
        ensures refused { result ≡ Ok false → self.new ≡ record self.old { kernel = note_step self.old.kernel (Refused pid); room = None } }
        ensures keeps { result ≡ Ok false → KeepsFlat self.old.kernel self.new.kernel }
        ensures same { result ≡ Ok false → SameEverywhere self.old.kernel self.new.kernel }
        ensures stops { StopsForRoom (IsAtBound self.old) result self.old self.new }
        ensures has_room { OnOk result (length self.old.kernel.journal < self.old.params.journal) }
        ensures running { result ≡ Ok true → IsRunning self.new }
        ensures goes_on { result ≡ Ok false → CanGoOn self.new }
    {
        self.make_room()?;
        let before = self.tables.book.holdings().len();
        let found = find_all(&mut self.tables.book, wants, true);
        if notes::or_stop(found)? {
            self.tables.found = self.tables.book.holdings().len() - before;
            return Ok(true);
        }
        self.note(Entry::Refused { pid })?;
        Ok(false)
    }
}
