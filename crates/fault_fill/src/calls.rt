//! The two calls by which crates above have a page served. One goes as far as needs no waiting, the other until the
//! page is valid. Callers may not serve a page by single units.
ghost use Rattle.io_edge.specs.WithFiles.{stores};
ghost use Rattle.std.specs.Prelude.{◌+◌, ◌≤◌, true, false, [], length, OnOk, OnErr, MatchResult};
ghost use Rattle.page_model.specs.Conditions.{Spares};
ghost use Rattle.page_model.specs.Rank.{HasRoom};
ghost use Rattle.clock_hands.specs.Outside.{Asks, GoesOn};
ghost use Rattle.clock_hands.specs.LastMoves.{last_moves};
ghost use Rattle.clock_hands.specs.Stops.{StopsWhile};
ghost use Rattle.fault_fill.specs.Serving.{CanServe, serving_page};
ghost use Rattle.fault_fill.specs.Answers.{ServedAs, ServedNow, IsShort, AllStayValid};

use crate::pages::{serve_now_on, serve_on};
use crate::served::Served;
use clock_hands::machine_state::Machine;
use io_edge::{Files, SwapDev};
use vm_facts::{Page, Stop};

/// Serves a page as far as that needs no waiting: it is valid then, or a read or a write of it is in flight, or it has no
/// frame and none is free. Other valid pages stay valid.
pub fn serve_page<F: Files, D: SwapDev>(
    m: &mut Machine,
    files: &mut F,
    swap: &mut D,
    page: Page,
) -> Result<Served, Stop>
    requires asks { Asks m.old (F.holds files.old) (D.blocks swap.old) }
    requires can { CanServe m.old.kernel.place page }
    ensures served { MatchResult result (λ answer. ServedAs answer page m.old m.new (F.holds files.old) (stores F.Files D.SwapDev files.old swap.old)
        (stores F.Files D.SwapDev files.new swap.new))
        (StopsWhile (serving_page false [] page) m.old m.new (F.holds files.old) (stores F.Files D.SwapDev files.old swap.old)
        (stores F.Files D.SwapDev files.new swap.new)) }
    ensures few { OnOk result (IsShort page m.old m.new) }
    ensures few_at_stop { OnErr result (length m.new.kernel.journal ≤ length m.old.kernel.journal + length m.old.kernel.place.transfers + 5) }
    ensures low { OnOk result (last_moves m.new.kernel.journal ≤ last_moves m.old.kernel.journal) }
    ensures stay { OnOk result (AllStayValid m.old.kernel.place m.new.kernel.place) }
    ensures goes_on { GoesOn F.Files D.SwapDev result m.new files.old files.new swap.old swap.new }
{
    serve_on(m, files, swap, page)
}

/// Serves a page until it is valid: transfers complete in order while it waits for one, and a frame is forced where none
/// is free, by hands that pass over the locked pages.
pub fn serve_page_now<F: Files, D: SwapDev>(
    m: &mut Machine,
    files: &mut F,
    swap: &mut D,
    page: Page,
    locked: &[Page],
) -> Result<(), Stop>
    requires asks { Asks m.old (F.holds files.old) (D.blocks swap.old) }
    requires can { CanServe m.old.kernel.place page }
    requires room { HasRoom m.old.kernel.place locked.now }
    requires low { last_moves m.old.kernel.journal ≤ 1000000 }
    ensures served { MatchResult result (λ u. ServedNow locked.now page m.old m.new (F.holds files.old) (stores F.Files D.SwapDev files.old swap.old)
        (stores F.Files D.SwapDev files.new swap.new))
        (StopsWhile (serving_page true locked.now page) m.old m.new (F.holds files.old) (stores F.Files D.SwapDev files.old swap.old)
        (stores F.Files D.SwapDev files.new swap.new)) }
    ensures few { OnOk result (IsShort page m.old m.new) }
    ensures few_at_stop { OnErr result (length m.new.kernel.journal ≤ length m.old.kernel.journal + length m.old.kernel.place.transfers + 5) }
    ensures low { OnOk result (last_moves m.new.kernel.journal ≤ last_moves m.old.kernel.journal) }
    ensures spares { OnOk result (Spares m.old.kernel.place m.new.kernel.place locked.now) }
    ensures goes_on { GoesOn F.Files D.SwapDev result m.new files.old files.new swap.old swap.new }
{
    serve_now_on(m, files, swap, page, locked)
}
