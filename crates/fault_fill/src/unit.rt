//! One unit of serving a page, chosen by the page's state. It may not go on to a second one, nor wait; pages.rt does
//! both.
ghost use Rattle.io_edge.specs.WithFiles.{stores};
ghost use Rattle.std.specs.Prelude.{◌≡◌, ◌⊎◌, ◌<◌, ◌≤◌, true, false, length, None, Err, OnOk, OnErr, MatchResult};
ghost use Rattle.core_map.specs.Frames.{Frames};
ghost use Rattle.page_model.specs.Pages.{frame_of};
ghost use Rattle.page_model.specs.Placement.{IsThere, state_of, filling_of};
ghost use Rattle.page_model.specs.Conditions.{IsShared};
ghost use Rattle.flat_state.specs.PageNames.{number_of};
ghost use Rattle.vm_facts.specs.declared.entry.Entry.TheVariants as entries;
ghost use Rattle.vm_facts.specs.declared.page.PageState.TheVariants.{Invalid};
ghost use Rattle.page_model.specs.Runs.{run_in, spare_frames};
ghost use Rattle.kernel_model.specs.Asks.{HasSpace};
ghost use Rattle.clock_hands.specs.Going.{CanGoOn, IsRunning};
ghost use Rattle.clock_hands.specs.Views.{IsNamedBy, ShowsSpace};
ghost use Rattle.clock_hands.specs.Showing.{ShowsCore};
ghost use Rattle.clock_hands.specs.PlaceOf.{is_blank};
ghost use Rattle.clock_hands.specs.Outside.{Asks, GoesOn};
ghost use Rattle.clock_hands.specs.Stops.{StopsAt};
ghost use Rattle.fault_fill.specs.Homes.{IsHome};
ghost use Rattle.fault_fill.specs.Serving.{CanServe};
ghost use Rattle.fault_fill.specs.Units.{PlainMade, PlainStop, AnyUnit, AnyStop, EndMade, ComesTo};

use crate::served::Served;
use clock_hands::kluster_io::pick_in;
use clock_hands::machine_state::Machine;
use io_edge::{Files, SwapDev};
use space_map::SpaceMap;
use vm_facts::{MOST_IN_FLIGHT, Page, PageState, Stop};

// The space that has a page of its own, or the lowest one that shares the page's text.
fn home_of(m: &Machine, page: Page) -> u32
    requires running { IsRunning m.now }
    requires there { IsThere m.now.kernel.place page }
    requires shared { IsShared m.now.kernel.place page }
    ensures space { HasSpace m.now.kernel.place result }
    ensures home { IsHome m.now.kernel.place page result }
{
    match page {
        Page::Data { sid, .. } | Page::Stack { sid, .. } => sid,
        Page::Text { image, .. } => match m.sharer(image) {
            Some(sid) => sid,
            None => unreachable!(),
        },
    }
}

// Its map.
fn space_of(m: &Machine, page: Page) -> &SpaceMap
    requires running { IsRunning m.now }
    requires there { IsThere m.now.kernel.place page }
    requires shared { IsShared m.now.kernel.place page }
    ensures named { IsNamedBy result.now page }
    ensures shows { (core : Frames) → ShowsCore m.now.kernel.place core → ShowsSpace m.now.kernel.place core result.now }
{
    match m.space(home_of(m, page)) {
        Some(space) => space,
        None => unreachable!(),
    }
}

// The frames that the read of a page may take.
fn spare_of(m: &Machine) -> u32
    requires { IsRunning m.now }
    ensures { result ≡ spare_frames m.now.kernel.place }
{
    m.free_frames().saturating_sub(m.core().frames() / 8).max(1)
}

// The run of the read of a page.
fn run_of(m: &Machine, page: Page) -> (u32, u32)
    requires running { IsRunning m.now }
    requires there { IsThere m.now.kernel.place page }
    requires shared { IsShared m.now.kernel.place page }
    ensures run { run_in m.now.kernel.place page ≡ record { lo = result.0; n = result.1 } }
    ensures small { number_of page ≤ 4096 }
{
    let space = space_of(m, page);
    let core = m.core();
    space.fits();
    pick_in(space, core, page, spare_of(m))
}

// The page is filled with zeros.
fn zero(m: &mut Machine, page: Page) -> Result<(), Stop>
    requires ready { CanGoOn m.old }
    requires can { CanServe m.old.kernel.place page }
    requires blank { is_blank (state_of m.old.kernel.place page) (filling_of m.old.kernel.place page) ≡ true }
    requires free { 0 < length m.old.kernel.place.free }
    ensures made { MatchResult result (λ u. PlainMade page m.old m.new) (PlainStop page m.old m.new) }
    ensures rest { OnOk result (m.new ≡ record m.old { kernel = m.new.kernel; room = None }) }
    ensures cause { OnErr result ((result ≡ Err Stop.JournalFull) ⊎ (result ≡ Err Stop.NoMemory)) }
    ensures goes_on { OnOk result (CanGoOn m.new) }
{
    m.fill_zero(page)
}

// The read of the page begins, with its run.
fn read(m: &mut Machine, page: Page) -> Result<(), Stop>
    requires ready { CanGoOn m.old }
    requires can { CanServe m.old.kernel.place page }
    requires frameless { frame_of (state_of m.old.kernel.place page) ≡ None }
    requires filled { is_blank (state_of m.old.kernel.place page) (filling_of m.old.kernel.place page) ≡ false }
    requires free { 0 < length m.old.kernel.place.free }
    requires few { length m.old.kernel.place.transfers < 16 }
    ensures made { MatchResult result (λ u. PlainMade page m.old m.new) (PlainStop page m.old m.new) }
    ensures rest { OnOk result (m.new ≡ record m.old { kernel = m.new.kernel; room = None }) }
    ensures cause { OnErr result ((result ≡ Err Stop.JournalFull) ⊎ (result ≡ Err Stop.NoMemory)) }
    ensures goes_on { OnOk result (CanGoOn m.new) }
{
    let (lo, n) = run_of(m, page);
    m.begin_get(page, lo, n)
}

// The page is usable again.
fn revive(m: &mut Machine, page: Page, frame: u32) -> Result<(), Stop>
    requires ready { CanGoOn m.old }
    requires can { CanServe m.old.kernel.place page }
    requires invalid { state_of m.old.kernel.place page ≡ Invalid frame }
    ensures made { MatchResult result (λ u. PlainMade page m.old m.new) (PlainStop page m.old m.new) }
    ensures rest { OnOk result (m.new ≡ record m.old { kernel = m.new.kernel; room = None }) }
    ensures cause { OnErr result ((result ≡ Err Stop.JournalFull) ⊎ (result ≡ Err Stop.NoMemory)) }
    ensures goes_on { OnOk result (CanGoOn m.new) }
{
    m.reclaim(page)
}

// The oldest transfer completes.
pub(crate) fn finish<F: Files, D: SwapDev>(
    m: &mut Machine,
    files: &mut F,
    swap: &mut D,
) -> Result<(), Stop>
    requires asks { Asks m.old (F.holds files.old) (D.blocks swap.old) }
    requires some { 0 < length m.old.kernel.place.transfers }
    ensures made { MatchResult result (λ u. EndMade m.old m.new (F.holds files.old) (stores F.Files D.SwapDev files.old swap.old)
        (stores F.Files D.SwapDev files.new swap.new))
        (StopsAt entries.Done m.old m.new (stores F.Files D.SwapDev files.old swap.old) (stores F.Files D.SwapDev files.new swap.new)) }
    ensures goes_on { GoesOn F.Files D.SwapDev result m.new files.old files.new swap.old swap.new }
{
    m.done(files, swap)?;
    Ok(())
}

// A page that has no frame is filled with zeros, or its read begins; before that a transfer completes where 16 are in
// flight. A frame is free.
fn fill<F: Files, D: SwapDev>(
    m: &mut Machine,
    files: &mut F,
    swap: &mut D,
    page: Page,
) -> Result<(), Stop>
    requires asks { Asks m.old (F.holds files.old) (D.blocks swap.old) }
    requires can { CanServe m.old.kernel.place page }
    requires frameless { frame_of (state_of m.old.kernel.place page) ≡ None }
    requires free { 0 < length m.old.kernel.place.free }
    ensures made { MatchResult result (λ u. AnyUnit page m.old m.new (F.holds files.old) (stores F.Files D.SwapDev files.old swap.old)
        (stores F.Files D.SwapDev files.new swap.new))
        (AnyStop page m.old m.new (stores F.Files D.SwapDev files.old swap.old) (stores F.Files D.SwapDev files.new swap.new)) }
    ensures goes_on { GoesOn F.Files D.SwapDev result m.new files.old files.new swap.old swap.new }
{
    if m.is_blank(page) {
        return zero(m, page);
    }
    if m.in_flight() == MOST_IN_FLIGHT {
        return finish(m, files, swap);
    }
    read(m, page)
}

// One unit of serving a page that needs no waiting: none is answered then. Where there is no such unit nothing is done,
// and the answer is what serving the page comes to.
pub(crate) fn serve_unit<F: Files, D: SwapDev>(
    m: &mut Machine,
    files: &mut F,
    swap: &mut D,
    page: Page,
) -> Result<Option<Served>, Stop>
    requires asks { Asks m.old (F.holds files.old) (D.blocks swap.old) }
    requires can { CanServe m.old.kernel.place page }
    ensures made { MatchResult result (λ u. ComesTo u page m.old m.new (F.holds files.old) (stores F.Files D.SwapDev files.old swap.old)
        (stores F.Files D.SwapDev files.new swap.new))
        (AnyStop page m.old m.new (stores F.Files D.SwapDev files.old swap.old) (stores F.Files D.SwapDev files.new swap.new)) }
    ensures goes_on { GoesOn F.Files D.SwapDev result m.new files.old files.new swap.old swap.new }
{
    match m.state_of(page) {
        Some(PageState::Valid(_)) => return Ok(Some(Served::Valid)),
        Some(PageState::Invalid(frame)) => revive(m, page, frame)?,
        Some(PageState::Coming(_) | PageState::Going(_)) => {
            return Ok(Some(Served::Asleep(page)));
        }
        Some(PageState::Unfilled | PageState::OnSwap) => {
            if m.free_frames() == 0 {
                return Ok(Some(Served::NoFrame));
            }
            fill(m, files, swap, page)?;
        }
        None => unreachable!(),
    }
    Ok(None)
}
