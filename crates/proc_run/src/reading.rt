//! What a call reads, over a memory of which some pages alone are shown. So the first page that it misses is found;
//! the call may not be made.
ghost use Rattle.std.specs.Prelude.{◌≡◌, List, IfOk};
ghost use Rattle.user_vax.specs.Program.{run};
ghost use Rattle.flat_state.specs.Flat.{NamedImage, FlatState, Process};
ghost use Rattle.flat_state.specs.Space.{Space};
ghost use Rattle.flat_model.specs.Calls.{reply_of, refusal_of};
ghost use Rattle.machine_state.specs.Going.{CanGoOn};
ghost use Rattle.machine_state.specs.UserMemory.{CanLend};
ghost use Rattle.step_units.specs.Growth.{space_of_pid};
ghost use Rattle.step_units.specs.Reading.{AreNamed};
ghost use Rattle.proc_run.specs.Shown.{shown_in};

use crate::shown::Shown;
use flat_model::{Asked, SystemCall};
use machine_state::Machine;
use std::alloc::Global;
use step_units::call_reads::read_by_call;
use vm_facts::{NoMemory, Page, Regs};

// What a call reads of a memory of which some pages alone are shown.
fn read_shown(
    alloc: Global,
    shown: &Shown<'_, '_>,
    call: SystemCall,
    regs: &Regs,
) -> Result<Asked<()>, NoMemory>
    requires { CanGoOn shown.now.memory.machine.now }
    ensures { (known : List NamedImage) (F : FlatState) (p : Process) (s : Space) → AreNamed known shown.now.memory.machine.now.images
        → IfOk result (λ asked. asked ≡ refusal_of (run (shown_in shown.now.memory.machine.now.kernel shown.now.memory.layout.sid shown.now.pages.now)
        (reply_of known F p s call regs.now))) }
{
    read_by_call(alloc, shown.memory.images(), shown, call, regs)
}

/// Reads what a call reads where these pages alone are shown, and says how the first refused byte is refused.
pub fn read_call(
    alloc: Global,
    m: &mut Machine,
    pid: u32,
    call: SystemCall,
    regs: &Regs,
    pages: &[Page],
) -> Result<Asked<()>, NoMemory>
    requires ready { CanGoOn m.old }
    requires lends { CanLend m.old.kernel pid }
    ensures value { (known : List NamedImage) (F : FlatState) (p : Process) (s : Space) → AreNamed known m.old.images
        → IfOk result (λ asked. asked ≡ refusal_of (run (shown_in m.old.kernel (space_of_pid m.old.kernel pid) pages.now)
        (reply_of known F p s call regs.now))) }
    ensures same { m.new ≡ m.old }
{
    let shown = Shown {
        memory: m.memory(pid),
        pages,
    };
    read_shown(alloc, &shown, call, regs)
}
