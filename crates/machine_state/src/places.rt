//! What the machine tells of the places of pages, and of its processes. Nothing may change here.
ghost use Rattle.machine_state.specs.Going.{IsRunning};
ghost use Rattle.std.specs.Prelude.{◌≡◌, ◌≤◌, ◌↔◌, false, IsSome, IfSome};
ghost use Rattle.flat_state.specs.PageNames.{number_of};
ghost use Rattle.page_model.specs.Placement.{IsThere, state_of, filling_of};
ghost use Rattle.table_steps.specs.Alike.{AreRecords};
ghost use Rattle.table_steps.specs.Lives.{AreMarked};
ghost use Rattle.table_steps.specs.Machine.{processes_of, residents_of};
ghost use Rattle.table_steps.specs.PlaceOf.{place_of, is_blank};

use crate::machine::Machine;
use proc_table::ProcTable;
use table_steps::places::state_shown;
use vm_facts::{Page, PageState};

impl Machine {
    /// The state of a page; None exactly where no live space and no image has it.
    pub fn state_of(&self, page: Page) -> Option<PageState>
        requires { IsRunning self.now }
        ensures there { IsSome result ↔ IsThere self.now.kernel.place page }
        ensures state { IfSome result (λ s. s ≡ state_of self.now.kernel.place page) }
        ensures few { IsSome result → number_of page ≤ 4096 }
    {
        self.tables.core.stands();
        self.tables.spaces.rise();
        let place = self.tables.place_of(page)?;
        Some(state_shown(&self.tables.core, place))
    }

    /// Whether a page that is there has to be filled with zeros.
    pub fn is_blank(&self, page: Page) -> bool
        requires running { IsRunning self.now }
        requires there { IsThere self.now.kernel.place page }
        ensures { result ≡ is_blank (state_of self.now.kernel.place page) (filling_of self.now.kernel.place page) }
    {
        self.tables.core.stands();
        self.tables.is_zero(page)
    }

    /// The records of all processes. In a machine that runs each is marked by whether some process lends it its space.
    pub fn processes(&self) -> &ProcTable
        ensures processes { self.now.kernel.processes ≡ processes_of result.now self.now.kernel.next_pid }
        ensures residents { self.now.kernel.place.residents ≡ residents_of result.now self.now.kernel.next_pid }
        ensures records { self.now.kernel.stopped ≡ false → AreRecords result.now self.now.kernel.next_pid }
        ensures borrowers { self.now.kernel.stopped ≡ false → AreMarked self.now.kernel.processes result.now }
    {
        &self.tables.processes
    }
}
