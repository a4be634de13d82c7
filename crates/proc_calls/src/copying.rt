//! A child's pages are copied from its parent's, in the order in which they are due. The parent's page comes in
//! first, and must stay until it is copied.
ghost use Rattle.io_edge.specs.WithFiles.{stores};
ghost use Rattle.std.specs.Prelude.{◌≡◌, ◌≤◌, ◌∷◌, [], OnOk, MatchResult};
ghost use Rattle.page_model.specs.Rank.{HasRoom};
ghost use Rattle.machine_state.specs.Outside.{Asks, GoesOn};
ghost use Rattle.fault_fill.specs.LastMoves.{last_moves};
ghost use Rattle.proc_calls.specs.Copying.{in_space, AreCopiesFrom, IsCopyFirst, CopiesPage, StopsPage, OnceCopied, CopiesAll, HasCopied, StopsCopying};

use fault_fill::clock_hands::make_room;
use fault_fill::serve_page_now;
use io_edge::{Files, SwapDev};
use machine_state::Machine;
use vm_facts::{Page, Stop};

// The page of this name in another space.
fn page_in(sid: u32, page: Page) -> Page
    ensures { result ≡ in_space sid page }
{
    match page {
        Page::Data { v, .. } => Page::Data { sid, v },
        Page::Stack { v, .. } => Page::Stack { sid, v },
        Page::Text { .. } => page,
    }
}

/// The page that is due first is copied from its parent's page, which comes in first, and is locked meanwhile.
pub fn copy_page<F: Files, D: SwapDev>(
    m: &mut Machine,
    files: &mut F,
    swap: &mut D,
    child: Page,
    parent: Page,
) -> Result<(), Stop>
    requires asks { Asks m.old (F.holds files.old) (D.blocks swap.old) }
    requires first { IsCopyFirst m.old.kernel.place child parent }
    requires room { HasRoom m.old.kernel.place (parent ∷ []) }
    requires low { last_moves m.old.kernel.journal ≤ 1000000 }
    ensures copied { MatchResult result (λ u. CopiesPage child parent m.old m.new (F.holds files.old) (stores F.Files D.SwapDev files.old swap.old)
        (stores F.Files D.SwapDev files.new swap.new))
        (StopsPage child parent m.old m.new (F.holds files.old) (stores F.Files D.SwapDev files.old swap.old) (stores F.Files D.SwapDev files.new swap.new)) }
    ensures on { OnOk result (OnceCopied child m.old m.new) }
    ensures goes_on { GoesOn F.Files D.SwapDev result m.new files.old files.new swap.old swap.new }
{
    serve_page_now(m, files, swap, parent, &[parent])?;
    make_room(m, files, swap, &[parent])?;
    m.copy(child, parent)
}

/// The pages of a child that are due are copied in turn, each from the page of its name in the parent's space.
pub fn copy_due<F: Files, D: SwapDev>(
    m: &mut Machine,
    files: &mut F,
    swap: &mut D,
    parent: u32,
) -> Result<(), Stop>
    requires asks { Asks m.old (F.holds files.old) (D.blocks swap.old) }
    requires due { AreCopiesFrom parent m.old.kernel.place.due }
    requires room { (page : Page) → HasRoom m.old.kernel.place (page ∷ []) }
    requires low { last_moves m.old.kernel.journal ≤ 1000000 }
    ensures copied { MatchResult result (λ u. CopiesAll m.old.kernel.place.due m.old m.new (F.holds files.old) (stores F.Files D.SwapDev files.old swap.old)
        (stores F.Files D.SwapDev files.new swap.new))
        (StopsCopying m.old.kernel.place.due m.old m.new (F.holds files.old) (stores F.Files D.SwapDev files.old swap.old)
        (stores F.Files D.SwapDev files.new swap.new)) }
    ensures on { OnOk result (HasCopied m.old m.new) }
    ensures goes_on { GoesOn F.Files D.SwapDev result m.new files.old files.new swap.old swap.new }
{
    while let Some(child) = m.due() {
        copy_page(m, files, swap, child, page_in(parent, child))?;
    }
    Ok(())
}
