//! Judges the line `D`: the oldest transfer ends. No other line of this crate may call a device.
ghost use Rattle.io_edge.specs.WithFiles.{stores};
ghost use Rattle.std.specs.Prelude.{◌≡◌, IfOk, OnOk, OnErr};
ghost use Rattle.vm_facts.specs.declared.entry.Entry.TheVariants as entries;
ghost use Rattle.machine_state.specs.Going.{CanGoOn};
ghost use Rattle.machine_state.specs.Conditions.{HasStopped};
ghost use Rattle.machine_state.specs.Outside.{Asks, stop_of, TransfersPages};
ghost use Rattle.paged_model.specs.Moves.{done_reason};
ghost use Rattle.move_judge.specs.Judged.{JudgedThrough};

use io_edge::{Files, SwapDev};
use machine_state::Machine;
use paged_model::Reason;
use vm_facts::Stop;

/// `D`: the oldest transfer in flight ends, through its device.
pub fn judge_done<F: Files, D: SwapDev>(
    m: &mut Machine,
    files: &mut F,
    swap: &mut D,
) -> Result<Option<Reason>, Stop>
    requires asks { Asks m.old (F.holds files.old) (D.blocks swap.old) }
    ensures judged { IfOk result (λ reason. reason ≡ done_reason m.old.kernel.place.transfers) }
    ensures made { IfOk result (JudgedThrough entries.Done (F.holds files.old) (stores F.Files D.SwapDev files.old swap.old)
        (stores F.Files D.SwapDev files.new swap.new) m.old m.new) }
    ensures stop { OnErr result (HasStopped m.old m.new) }
    ensures outside { TransfersPages F.Files D.SwapDev (stop_of result) files.old files.new swap.old swap.new }
    ensures goes_on { OnOk result (CanGoOn m.new) }
{
    if m.done(files, swap)? {
        Ok(None)
    } else {
        Ok(Some(Reason::NoTransfer))
    }
}
