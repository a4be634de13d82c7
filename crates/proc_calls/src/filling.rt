//! The new stack page that is due first is filled; a frame is forced where none is free. It must be first among what
//! is due.
ghost use Rattle.io_edge.specs.WithFiles.{stores};
ghost use Rattle.std.specs.Prelude.{◌≤◌, [], MatchResult};
ghost use Rattle.page_model.specs.Rank.{HasRoom};
ghost use Rattle.machine_state.specs.Outside.{Asks, GoesOn};
ghost use Rattle.fault_fill.specs.LastMoves.{last_moves};
ghost use Rattle.vm_facts.specs.declared.entry.Entry.TheVariants as entries;
ghost use Rattle.proc_calls.specs.Filling.{IsStartFirst, FillsStart, StopsFilling};

use fault_fill::clock_hands::make_room;
use io_edge::{Files, SwapDev};
use machine_state::Machine;
use vm_facts::{Page, Stop};

/// The new stack page that is due first is filled with its bytes. A frame is forced for it where none is free, and nothing is
/// locked meanwhile.
pub fn fill_start<F: Files, D: SwapDev>(
    m: &mut Machine,
    files: &mut F,
    swap: &mut D,
    page: Page,
) -> Result<(), Stop>
    requires asks { Asks m.old (F.holds files.old) (D.blocks swap.old) }
    requires first { IsStartFirst m.old.kernel.place page }
    requires room { HasRoom m.old.kernel.place [] }
    requires low { last_moves m.old.kernel.journal ≤ 1000000 }
    ensures filled { MatchResult result (λ u. FillsStart page m.old m.new (F.holds files.old) (stores F.Files D.SwapDev files.old swap.old)
        (stores F.Files D.SwapDev files.new swap.new))
        (StopsFilling (entries.Zero page) [] m.old m.new (F.holds files.old) (stores F.Files D.SwapDev files.old swap.old)
        (stores F.Files D.SwapDev files.new swap.new)) }
    ensures goes_on { GoesOn F.Files D.SwapDev result m.new files.old files.new swap.old swap.new }
{
    make_room(m, files, swap, &[])?;
    m.fill_zero(page)
}
