//! The start of a run, by its `Core`. It comes once, before every line.
ghost use Rattle.io_edge.specs.WithFiles.{stores};
ghost use Rattle.std.specs.Prelude.{◌≡◌, ◌≤◌, ℕ, List, [], length, Some, IfOk, IfErr, Ok};
ghost use Rattle.vm_facts.specs.SwapImages.{SwapImage};
ghost use Rattle.flat_state.specs.Flat.{Inputs};
ghost use Rattle.flat_model.specs.Asked.{start_held};
ghost use Rattle.machine_state.specs.Going.{CanGoOn};
ghost use Rattle.machine_state.specs.Outside.{IsBacked, stop_of, TransfersPages};
ghost use Rattle.proc_run.specs.Sizes.{KeptAtStop};
ghost use Rattle.vm_core.specs.FirstProcesses.{AreAmong, StartsFrom, started_by};
ghost use Rattle.vm_core.specs.Leading.{IsTold};
ghost use Rattle.vm_core.specs.Cores.{StandsUnderway};
ghost use Rattle.vm_core.specs.Starting.{IsFresh, StartsRun, StopsStartingRun};

use crate::run::Core;
use crate::{Started, start};
use io_edge::{Files, SwapDev};
use vm_facts::Stop;

impl Core {
    /// Starts the first processes, in images of these numbers, and fills their stack pages. It is the first call.
    pub fn start<F: Files, D: SwapDev>(
        &mut self,
        files: &mut F,
        swap: &mut D,
        first: &[u32],
    ) -> Result<Started, Stop>
        requires fresh { IsFresh self.old }
        requires frames { 64 ≤ self.old.machine.params.frames }
        requires few { length first.now ≤ 16 }
        requires numbers { AreAmong self.old.machine.images first.now }
        requires backed { IsBacked self.old.machine (F.holds files.old) (D.blocks swap.old) }
        ensures space { (A : Inputs) → StartsFrom A self.old.machine first.now → IfOk result (λ started. started ≡ started_by (start_held A)) }
        ensures none_made { (pid : ℕ) → result ≡ Ok (Started.NoSpace pid) → self.new.machine.kernel.journal ≡ [] }
        ensures untouched { (pid : ℕ) → result ≡ Ok (Started.NoSpace pid) → swap.new ≡ swap.old }
        ensures unasked { (pid : ℕ) → result ≡ Ok (Started.NoSpace pid) → files.new ≡ files.old }
        ensures kept_ready { (pid : ℕ) → result ≡ Ok (Started.NoSpace pid) → CanGoOn self.new.machine }
        ensures kept_params { (pid : ℕ) → result ≡ Ok (Started.NoSpace pid) → self.new.machine.params ≡ self.old.machine.params }
        ensures kept_images { (pid : ℕ) → result ≡ Ok (Started.NoSpace pid) → self.new.machine.images ≡ self.old.machine.images }
        ensures starts { result ≡ Ok Started.Ok → StartsRun self.old self.new first.now (F.holds files.old) (stores F.Files D.SwapDev files.old swap.old)
            (stores F.Files D.SwapDev files.new swap.new) }
        ensures stops { (A : Inputs) (image : SwapImage) → IsTold A self.old.machine first.now (F.holds files.old) image → stores F.Files D.SwapDev files.old
            swap.old ≡ Some image
            → IfErr result (λ stop. StopsStartingRun A self.new.machine image stop (stores F.Files D.SwapDev files.new swap.new)) }
        ensures goes_on { result ≡ Ok Started.Ok → StandsUnderway self.new }
        ensures params { result ≡ Ok Started.Ok → self.new.machine.params ≡ self.old.machine.params }
        ensures images { result ≡ Ok Started.Ok → self.new.machine.images ≡ self.old.machine.images }
        ensures kept { IfErr result (KeptAtStop self.old.machine self.new.machine) }
        ensures counted { self.new.counted ≡ self.old.counted }
        ensures outside { TransfersPages F.Files D.SwapDev (stop_of result) files.old files.new swap.old swap.new }
    {
        start(&mut self.machine, files, swap, first)
    }
}
