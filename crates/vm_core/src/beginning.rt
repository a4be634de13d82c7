//! First processes begin one by one, until the pieces of one find no place. No entry may stand in the journal yet.
ghost use Rattle.std.specs.Prelude.{◌≡◌, ◌≤◌, ◌+◌, true, [], length, IfOk, IfErr, OnOk, OnErr};
ghost use Rattle.machine_state.specs.Going.{CanGoOn};
ghost use Rattle.proc_run.specs.Sizes.{SameSizes};
ghost use Rattle.vm_core.specs.FirstProcesses.{AreAmong};
ghost use Rattle.vm_core.specs.Beginning.{Begins};

use crate::first_processes::Started;
use machine_state::Machine;
use vm_facts::Stop;

/// A process begins in each of these images, until the pieces of one find no place.
pub(crate) fn begin_all(m: &mut Machine, first: &[u32]) -> Result<Started, Stop>
    requires ready { CanGoOn m.old }
    requires empty { m.old.kernel.journal ≡ [] }
    requires few { m.old.kernel.next_pid + length first.now ≤ 17 }
    requires numbers { AreAmong m.old.images first.now }
    ensures began { IfOk result (λ started. Begins started first.now m.old m.new) }
    ensures stopped { OnErr result (m.new.kernel.stopped ≡ true) }
    ensures sizes { SameSizes m.old m.new }
    ensures frames { OnOk result (length m.new.kernel.place.holds ≡ length m.old.kernel.place.holds) }
    ensures cause { IfErr result (λ stop. stop ≡ Stop.NoMemory) }
    ensures journal { m.new.kernel.journal ≡ [] }
    ensures goes_on { OnOk result (CanGoOn m.new) }
{
    for image in first {
        let pid = m.next_numbers().0;
        if !m.begin(pid, *image)? {
            return Ok(Started::NoSpace(pid));
        }
    }
    Ok(Started::Ok)
}
