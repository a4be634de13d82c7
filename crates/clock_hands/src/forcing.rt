//! Forces a frame for a page that can't wait for one. Transfers in flight end first, and only then do the hands move.
//! Pages that the caller locks may not lose their frames.
ghost use Rattle.io_edge.specs.WithFiles.{stores};
ghost use Rattle.std.specs.Prelude.{◌≡◌, ◌<◌, ◌≤◌, ◌+◌, ◌^◌, [], length, OnOk, OnErr, IfErr};
ghost use Rattle.page_model.specs.Serve.{force_entry};
ghost use Rattle.page_model.specs.Rank.{HasRoom, far};
ghost use Rattle.page_model.specs.Conditions.{Spares};
ghost use Rattle.paging_units.specs.Done.{KeepsThrough};
ghost use Rattle.paging_units.specs.Outside.{Asks, GoesOn};
ghost use Rattle.paging_units.specs.Made.{ground, MakesUnit};
ghost use Rattle.paging_units.specs.LastMoves.{last_moves};
ghost use Rattle.paging_units.specs.Stops.{StopsAt, StopsWhile};
ghost use Rattle.clock_hands.specs.Forced.{Forced, forcing_frame};

use crate::looking::next_write;
use io_edge::{Files, SwapDev};
use paging_units::machine_state::Machine;
use vm_facts::{Page, Stop};

// One unit of forcing: the oldest transfer completes where one is in flight, and else the hands move, which pass over the
// locked pages.
fn force_once<F: Files, D: SwapDev>(
    m: &mut Machine,
    files: &mut F,
    swap: &mut D,
    locked: &[Page],
) -> Result<(), Stop>
    requires asks { Asks m.old (F.holds files.old) (D.blocks swap.old) }
    requires none { m.old.kernel.place.free ≡ [] }
    requires room { HasRoom m.old.kernel.place locked.now }
    requires fits { last_moves m.old.kernel.journal + 1 < 2 ^ 32 }
    ensures made { OnOk result
        (MakesUnit (ground m.old (F.holds files.old) locked.now) (force_entry m.old.kernel.place.transfers) m.old m.new
        (stores F.Files D.SwapDev files.old swap.old) (stores F.Files D.SwapDev files.new swap.new)) }
    ensures keeps { OnOk result (KeepsThrough m.old m.new (F.holds files.old) (stores F.Files D.SwapDev files.old swap.old)
        (stores F.Files D.SwapDev files.new swap.new)) }
    ensures stopped { IfErr result (StopsAt (force_entry m.old.kernel.place.transfers) m.old m.new (stores F.Files D.SwapDev files.old swap.old)
        (stores F.Files D.SwapDev files.new swap.new)) }
    ensures goes_on { GoesOn F.Files D.SwapDev result m.new files.old files.new swap.old swap.new }
{
    if m.done(files, swap)? {
        return Ok(());
    }
    let (lo, n) = next_write(m, locked);
    m.hand(locked, lo, n)
}

// Units of forcing, until a frame is free.
fn force_frame<F: Files, D: SwapDev>(
    m: &mut Machine,
    files: &mut F,
    swap: &mut D,
    locked: &[Page],
) -> Result<(), Stop>
    requires asks { Asks m.old (F.holds files.old) (D.blocks swap.old) }
    requires room { HasRoom m.old.kernel.place locked.now }
    requires fits { last_moves m.old.kernel.journal + far m.old.kernel.place locked.now < 2 ^ 32 }
    ensures forced { OnOk result (Forced locked.now m.old m.new (F.holds files.old) (stores F.Files D.SwapDev files.old swap.old)
        (stores F.Files D.SwapDev files.new swap.new)) }
    ensures keeps { OnOk result (KeepsThrough m.old m.new (F.holds files.old) (stores F.Files D.SwapDev files.old swap.old)
        (stores F.Files D.SwapDev files.new swap.new)) }
    ensures stopped { IfErr result (StopsWhile (forcing_frame locked.now) m.old m.new (F.holds files.old) (stores F.Files D.SwapDev files.old swap.old)
        (stores F.Files D.SwapDev files.new swap.new)) }
    ensures goes_on { GoesOn F.Files D.SwapDev result m.new files.old files.new swap.old swap.new }
{
    while m.free_frames() == 0 {
        force_once(m, files, swap, locked)?;
    }
    Ok(())
}

/// Forces a frame, unless one is free: transfers complete while some are in flight, and else the hands move, which pass
/// over the locked pages. Afterwards a frame is free.
pub fn make_room<F: Files, D: SwapDev>(
    m: &mut Machine,
    files: &mut F,
    swap: &mut D,
    locked: &[Page],
) -> Result<(), Stop>
    requires asks { Asks m.old (F.holds files.old) (D.blocks swap.old) }
    requires room { HasRoom m.old.kernel.place locked.now }
    requires low { last_moves m.old.kernel.journal ≤ 1000000 }
    ensures forced { OnOk result (Forced locked.now m.old m.new (F.holds files.old) (stores F.Files D.SwapDev files.old swap.old)
        (stores F.Files D.SwapDev files.new swap.new)) }
    ensures keeps { OnOk result (KeepsThrough m.old m.new (F.holds files.old) (stores F.Files D.SwapDev files.old swap.old)
        (stores F.Files D.SwapDev files.new swap.new)) }
    ensures stopped { IfErr result (StopsWhile (forcing_frame locked.now) m.old m.new (F.holds files.old) (stores F.Files D.SwapDev files.old swap.old)
        (stores F.Files D.SwapDev files.new swap.new)) }
    ensures few { OnOk result
        (length m.new.kernel.journal + length m.new.kernel.place.transfers ≤ length m.old.kernel.journal + length m.old.kernel.place.transfers + 2) }
    ensures few_at_stop { OnErr result (length m.new.kernel.journal ≤ length m.old.kernel.journal + length m.old.kernel.place.transfers + 2) }
    ensures flights { OnOk result (length m.new.kernel.place.transfers ≤ length m.old.kernel.place.transfers) }
    ensures counted { OnOk result (last_moves m.new.kernel.journal ≤ last_moves m.old.kernel.journal + length m.old.kernel.place.holds) }
    ensures spares { OnOk result (Spares m.old.kernel.place m.new.kernel.place locked.now) }
    ensures goes_on { GoesOn F.Files D.SwapDev result m.new files.old files.new swap.old swap.new }
{
    force_frame(m, files, swap, locked)
}
