//! The first processes of a run start, and their stack pages are filled. `Core` and `Film` start alike by it, once
//! and before all else.
ghost use Rattle.io_edge.specs.WithFiles.{stores};
ghost use Rattle.std.specs.Prelude.{◌≡◌, ◌≤◌, ℕ, List, [], length, Some, IfOk, IfErr, Ok};
ghost use Rattle.vm_facts.specs.SwapImages.{SwapImage};
ghost use Rattle.flat_state.specs.Flat.{Inputs};
ghost use Rattle.flat_model.specs.Asked.{start_held};
ghost use Rattle.machine_state.specs.Going.{CanGoOn};
ghost use Rattle.machine_state.specs.Outside.{IsBacked, stop_of, TransfersPages};
ghost use Rattle.proc_run.specs.Sizes.{KeptAtStop};
ghost use Rattle.vm_core.specs.FirstProcesses.{IsNew, AreAmong, StartsFrom, started_by, HasStarted};
ghost use Rattle.vm_core.specs.Leading.{IsTold, StartLeads, StartStops};

use crate::beginning::begin_all;
use crate::filling::fill_rest;
use io_edge::{Files, SwapDev};
use machine_state::Machine;
use vm_facts::Stop;

/// What the start of a run answers.
#[derive(Clone, Copy, Debug, PartialEq, Eq, Drop)]
pub enum Started {
    /// All first processes began.
    Ok,
    /// The pieces of this first process find no place.
    NoSpace(u32),
}

/// Starts the first processes, in images of these numbers, and fills their stack pages.
pub fn start<F: Files, D: SwapDev>(
    m: &mut Machine,
    files: &mut F,
    swap: &mut D,
    first: &[u32],
) -> Result<Started, Stop>
    requires new { IsNew m.old }
    requires frames { 64 ≤ m.old.params.frames }
    requires few { length first.now ≤ 16 }
    requires numbers { AreAmong m.old.images first.now }
    requires backed { IsBacked m.old (F.holds files.old) (D.blocks swap.old) }
    ensures space { (A : Inputs) → StartsFrom A m.old first.now → IfOk result (λ started. started ≡ started_by (start_held A)) }
    ensures none_made { (pid : ℕ) → result ≡ Ok (Started.NoSpace pid) → m.new.kernel.journal ≡ [] }
    ensures untouched { (pid : ℕ) → result ≡ Ok (Started.NoSpace pid) → swap.new ≡ swap.old }
    ensures unasked { (pid : ℕ) → result ≡ Ok (Started.NoSpace pid) → files.new ≡ files.old }
    ensures kept_ready { (pid : ℕ) → result ≡ Ok (Started.NoSpace pid) → CanGoOn m.new }
    ensures kept_params { (pid : ℕ) → result ≡ Ok (Started.NoSpace pid) → m.new.params ≡ m.old.params }
    ensures kept_images { (pid : ℕ) → result ≡ Ok (Started.NoSpace pid) → m.new.images ≡ m.old.images }
    ensures kept { IfErr result (KeptAtStop m.old m.new) }
    ensures goes_on { result ≡ Ok Started.Ok → HasStarted m.old m.new }
    ensures leads { (A : Inputs) (image : SwapImage) → IsTold A m.old first.now (F.holds files.old) image → stores F.Files D.SwapDev files.old swap.old ≡ Some
        image
        → result ≡ Ok Started.Ok → StartLeads A m.new (F.holds files.old) image (stores F.Files D.SwapDev files.new swap.new) }
    ensures stops { (A : Inputs) (image : SwapImage) → IsTold A m.old first.now (F.holds files.old) image → stores F.Files D.SwapDev files.old swap.old ≡ Some
        image
        → IfErr result (λ stop. StartStops A m.new image stop (stores F.Files D.SwapDev files.new swap.new)) }
    ensures outside { TransfersPages F.Files D.SwapDev (stop_of result) files.old files.new swap.old swap.new }
{
    let started = begin_all(m, first)?;
    match started {
        Started::Ok => {
            fill_rest(m, files, swap)?;
            Ok(Started::Ok)
        }
        Started::NoSpace(pid) => Ok(Started::NoSpace(pid)),
    }
}
