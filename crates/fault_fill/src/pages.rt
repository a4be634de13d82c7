//! Serves a page unit by unit, with waiting or without. Each unit is the next one of the policy, so none may be added
//! or left out.
ghost use Rattle.io_edge.specs.WithFiles.{stores};
ghost use Rattle.std.specs.Prelude.{◌≡◌, ◌≤◌, true, false, [], MatchResult};
ghost use Rattle.clock_hands.specs.Outside.{Asks, GoesOn};
ghost use Rattle.page_model.specs.Rank.{HasRoom};
ghost use Rattle.clock_hands.specs.LastMoves.{last_moves};
ghost use Rattle.clock_hands.specs.Stops.{StopsWhile};
ghost use Rattle.fault_fill.specs.Serving.{CanServe, serving_page};
ghost use Rattle.fault_fill.specs.Units.{GoesFurther};
ghost use Rattle.fault_fill.specs.Answers.{ServesAs, ServesNow};

use crate::served::Served;
use crate::unit::{finish, serve_unit};
use clock_hands::machine_state::Machine;
use clock_hands::make_room;
use io_edge::{Files, SwapDev};
use vm_facts::{Page, Stop};

// Serves a page as far as that needs no waiting.
pub(crate) fn serve_on<F: Files, D: SwapDev>(
    m: &mut Machine,
    files: &mut F,
    swap: &mut D,
    page: Page,
) -> Result<Served, Stop>
    requires asks { Asks m.old (F.holds files.old) (D.blocks swap.old) }
    requires can { CanServe m.old.kernel.place page }
    ensures served { MatchResult result (λ answer. ServesAs answer page m.old m.new (F.holds files.old) (stores F.Files D.SwapDev files.old swap.old)
        (stores F.Files D.SwapDev files.new swap.new))
        (StopsWhile (serving_page false [] page) m.old m.new (F.holds files.old) (stores F.Files D.SwapDev files.old swap.old)
        (stores F.Files D.SwapDev files.new swap.new)) }
    ensures goes_on { GoesOn F.Files D.SwapDev result m.new files.old files.new swap.old swap.new }
{
    let unit = match serve_unit(m, files, swap, page) {
        Ok(unit) => unit,
        Err(stop) => return Err(stop),
    };
    match unit {
        Some(served) => Ok(served),
        None => serve_on(m, files, swap, page),
    }
}

// Units of serving a page, waiting included: false comes exactly where it is valid.
fn serve_further<F: Files, D: SwapDev>(
    m: &mut Machine,
    files: &mut F,
    swap: &mut D,
    page: Page,
    locked: &[Page],
) -> Result<bool, Stop>
    requires asks { Asks m.old (F.holds files.old) (D.blocks swap.old) }
    requires can { CanServe m.old.kernel.place page }
    requires room { HasRoom m.old.kernel.place locked.now }
    requires low { m.old.kernel.place.free ≡ [] → last_moves m.old.kernel.journal ≤ 1000000 }
    ensures made { MatchResult result (λ more. GoesFurther more locked.now page m.old m.new (F.holds files.old) (stores F.Files D.SwapDev files.old swap.old)
        (stores F.Files D.SwapDev files.new swap.new))
        (StopsWhile (serving_page true locked.now page) m.old m.new (F.holds files.old) (stores F.Files D.SwapDev files.old swap.old)
        (stores F.Files D.SwapDev files.new swap.new)) }
    ensures goes_on { GoesOn F.Files D.SwapDev result m.new files.old files.new swap.old swap.new }
{
    let unit = match serve_unit(m, files, swap, page) {
        Ok(unit) => unit,
        Err(stop) => return Err(stop),
    };
    let Some(served) = unit else {
        return Ok(true);
    };
    match served {
        Served::Valid => Ok(false),
        Served::Asleep(_) => match finish(m, files, swap) {
            Ok(()) => Ok(true),
            Err(stop) => Err(stop),
        },
        Served::NoFrame => match make_room(m, files, swap, locked) {
            Ok(()) => Ok(true),
            Err(stop) => Err(stop),
        },
        Served::NoSpace | Served::Signal(_) => unreachable!(),
    }
}

// Serves a page until it is valid.
pub(crate) fn serve_now_on<F: Files, D: SwapDev>(
    m: &mut Machine,
    files: &mut F,
    swap: &mut D,
    page: Page,
    locked: &[Page],
) -> Result<(), Stop>
    requires asks { Asks m.old (F.holds files.old) (D.blocks swap.old) }
    requires can { CanServe m.old.kernel.place page }
    requires room { HasRoom m.old.kernel.place locked.now }
    requires low { m.old.kernel.place.free ≡ [] → last_moves m.old.kernel.journal ≤ 1000000 }
    ensures served { MatchResult result (λ u. ServesNow locked.now page m.old m.new (F.holds files.old) (stores F.Files D.SwapDev files.old swap.old)
        (stores F.Files D.SwapDev files.new swap.new))
        (StopsWhile (serving_page true locked.now page) m.old m.new (F.holds files.old) (stores F.Files D.SwapDev files.old swap.old)
        (stores F.Files D.SwapDev files.new swap.new)) }
    ensures goes_on { GoesOn F.Files D.SwapDev result m.new files.old files.new swap.old swap.new }
{
    let more = match serve_further(m, files, swap, page, locked) {
        Ok(more) => more,
        Err(stop) => return Err(stop),
    };
    if more {
        serve_now_on(m, files, swap, page, locked)
    } else {
        Ok(())
    }
}
