//! Serves an access of a process; its stack grows first where it has to. Swap for the growth is found before anything
//! else. A process that must end isn't ended here: its caller is told.
ghost use Rattle.io_edge.specs.WithFiles.{stores};
ghost use Rattle.std.specs.Prelude.{◌≡◌, ◌⊎◌, ◌≤◌, ◌<◌, true, false, [], length, Some, IfOk, OnOk, OnErr, Ok, Err, MatchResult};
ghost use Rattle.page_model.specs.Placement.{image_of};
ghost use Rattle.page_model.specs.Place.{data_count};
ghost use Rattle.page_model.specs.Rank.{HasRoom};
ghost use Rattle.clock_hands.specs.Going.{CanGoOn, IsRunning};
ghost use Rattle.clock_hands.specs.Machine.{proc_shown};
ghost use Rattle.clock_hands.specs.Showing.{IsShown};
ghost use Rattle.clock_hands.specs.Conditions.{HasStopped};
ghost use Rattle.clock_hands.specs.UserMemory.{CanLend};
ghost use Rattle.clock_hands.specs.Outside.{Asks, GoesOn};
ghost use Rattle.clock_hands.specs.LastMoves.{last_moves};
ghost use Rattle.kernel_model.specs.Unit.{proc_of};
ghost use Rattle.fault_fill.specs.Growth.{space_of_pid, access_by, IsAsked, AsksGrowth, IsGrowth, GrowsBy};
ghost use Rattle.fault_fill.specs.Touches.{Reaches, ReadyIf, TouchedAs, TouchedNow, AccessComes, AccessStops};

use crate::access::{Access, access_in};
use crate::calls::{serve_page, serve_page_now};
use crate::served::Served;
use clock_hands::machine_state::{Machine, Want};
use flat_state::Change;
use io_edge::{Files, SwapDev};
use proc_table::{Life, Proc};
use space_map::SpaceMap;
use swap_book::Owner;
use vm_facts::{Entry, Page, Stop};

// The record of a process.
fn process(m: &Machine, pid: u32) -> Proc
    requires running { IsRunning m.now }
    requires lends { CanLend m.now.kernel pid }
    ensures { proc_of m.now.kernel pid ≡ Some (proc_shown result) }
{
    match m.processes().get(pid) {
        Some(process) => *process,
        None => unreachable!(),
    }
}

// The map of the space that it holds.
fn map_of(m: &Machine, pid: u32) -> &SpaceMap
    requires running { IsRunning m.now }
    requires lends { CanLend m.now.kernel pid }
    ensures named { result.now.sid ≡ space_of_pid m.now.kernel pid }
    ensures of_image { result.now.image ≡ image_of m.now.kernel.place (space_of_pid m.now.kernel pid) }
    ensures shown { IsShown m.now.kernel.place result.now }
{
    let Life::Holds(sid) = process(m, pid).state else {
        unreachable!()
    };
    match m.space(sid) {
        Some(space) => space,
        None => unreachable!(),
    }
}

// How many data pages that has.
fn data_pages_of(m: &Machine, pid: u32) -> u32
    requires running { IsRunning m.now }
    requires lends { CanLend m.now.kernel pid }
    ensures count { result ≡ data_count m.now.kernel.place (space_of_pid m.now.kernel pid) }
    ensures few { result ≤ 4096 }
{
    map_of(m, pid).data_pages()
}

// What an access of the process asks for.
fn access_of(m: &Machine, pid: u32, address: u32, write: bool) -> Access
    requires running { IsRunning m.now }
    requires lends { CanLend m.now.kernel pid }
    ensures is { result ≡ access_by m.now.kernel pid address write }
    ensures can { IsAsked m.now.kernel.place (space_of_pid m.now.kernel pid) result }
{
    access_in(map_of(m, pid), address, write)
}

// The stack of a process grows to so many pages. False comes exactly where its pieces find no place.
fn grow(m: &mut Machine, pid: u32, sid: u32, pages: u32) -> Result<bool, Stop>
    requires ready { CanGoOn m.old }
    requires clear { m.old.kernel.place.due ≡ [] }
    requires lends { CanLend m.old.kernel pid }
    requires growth { IsGrowth m.old.kernel.place (space_of_pid m.old.kernel pid) sid pages }
    ensures grows { IfOk result (λ grew. GrowsBy grew m.old m.new pid pages) }
    ensures has_room { OnOk result (length m.old.kernel.journal < m.old.params.journal) }
    ensures stop { OnErr result (HasStopped m.old m.new) }
    ensures cause { OnErr result ((result ≡ Err Stop.JournalFull) ⊎ (result ≡ Err Stop.NoMemory)) }
    ensures full { result ≡ Err Stop.JournalFull → m.old.params.journal ≤ length m.old.kernel.journal }
    ensures goes_on { OnOk result (CanGoOn m.new) }
{
    let regs = process(m, pid).regs;
    let data_pages = data_pages_of(m, pid);
    let want = Want {
        owner: Owner::Stack(sid),
        blocks: 2 * pages,
    };
    if !m.ask(pid, &[want])? {
        return Ok(false);
    }
    m.flat(
        pid,
        &regs,
        Entry::Grew { pid, pages },
        Change::Resize {
            data_pages,
            stack_pages: pages,
        },
    )?;
    Ok(true)
}

// The page of an access, for which the stack grows where it has to; or why there is none.
fn page_for(
    m: &mut Machine,
    pid: u32,
    address: u32,
    write: bool,
) -> Result<Result<Page, Served>, Stop>
    requires ready { CanGoOn m.old }
    requires clear { m.old.kernel.place.due ≡ [] }
    requires lends { CanLend m.old.kernel pid }
    ensures reaches { IfOk result (λ page. Reaches (access_by m.old.kernel pid address write) page pid m.old m.new) }
    ensures ready { IfOk result (λ page. ReadyIf page m.old m.new) }
    ensures stops { OnErr result (AsksGrowth (access_by m.old.kernel pid address write)) }
    ensures stop { OnErr result (HasStopped m.old m.new) }
    ensures cause { OnErr result ((result ≡ Err Stop.JournalFull) ⊎ (result ≡ Err Stop.NoMemory)) }
    ensures full { result ≡ Err Stop.JournalFull → m.old.params.journal ≤ length m.old.kernel.journal }
    ensures goes_on { OnOk result (CanGoOn m.new) }
{
    match access_of(m, pid, address, write) {
        Access::Page(page) => Ok(Ok(page)),
        Access::Refused(signal) => Ok(Err(Served::Signal(signal))),
        Access::Growth { sid, pages } => {
            if grow(m, pid, sid, pages)? {
                Ok(Ok(Page::Stack { sid, v: pages - 1 }))
            } else {
                Ok(Err(Served::NoSpace))
            }
        }
    }
}

/// Serves an access of a process to a byte, as far as that needs no waiting. The stack grows where the byte lies below
/// it, near enough.
pub fn serve<F: Files, D: SwapDev>(
    m: &mut Machine,
    files: &mut F,
    swap: &mut D,
    pid: u32,
    address: u32,
    write: bool,
) -> Result<Served, Stop>
    requires asks { Asks m.old (F.holds files.old) (D.blocks swap.old) }
    requires clear { m.old.kernel.place.due ≡ [] }
    requires lends { CanLend m.old.kernel pid }
    ensures served { MatchResult result
        (λ answer. AccessComes (λ came q from. TouchedAs came q from m.new (F.holds files.old) (stores F.Files D.SwapDev files.old swap.old)
        (stores F.Files D.SwapDev files.new swap.new))
        (access_by m.old.kernel pid address write) answer pid m.old m.new (stores F.Files D.SwapDev files.old swap.old)
        (stores F.Files D.SwapDev files.new swap.new))
        (AccessStops false [] (access_by m.old.kernel pid address write) pid m.old m.new (F.holds files.old) (stores F.Files D.SwapDev files.old swap.old)
        (stores F.Files D.SwapDev files.new swap.new)) }
    ensures goes_on { GoesOn F.Files D.SwapDev result m.new files.old files.new swap.old swap.new }
{
    match page_for(m, pid, address, write)? {
        Ok(page) => serve_page(m, files, swap, page),
        Err(served) => Ok(served),
    }
}

/// Serves an access of a process to a byte until its page is valid: it waits for transfers, and forces a frame where none
/// is free, by hands that pass over the locked pages. It never answers `Asleep` or `NoFrame`. No page is due: while copies
/// are, their pages are served by `serve_page_now`.
pub fn serve_now<F: Files, D: SwapDev>(
    m: &mut Machine,
    files: &mut F,
    swap: &mut D,
    pid: u32,
    address: u32,
    write: bool,
    locked: &[Page],
) -> Result<Served, Stop>
    requires asks { Asks m.old (F.holds files.old) (D.blocks swap.old) }
    requires clear { m.old.kernel.place.due ≡ [] }
    requires lends { CanLend m.old.kernel pid }
    requires room { HasRoom m.old.kernel.place locked.now }
    requires low { last_moves m.old.kernel.journal ≤ 1000000 }
    ensures served { MatchResult result
        (λ answer. AccessComes (λ came q from. TouchedNow locked.now came q from m.new (F.holds files.old) (stores F.Files D.SwapDev files.old swap.old)
        (stores F.Files D.SwapDev files.new swap.new))
        (access_by m.old.kernel pid address write) answer pid m.old m.new (stores F.Files D.SwapDev files.old swap.old)
        (stores F.Files D.SwapDev files.new swap.new))
        (AccessStops true locked.now (access_by m.old.kernel pid address write) pid m.old m.new (F.holds files.old)
        (stores F.Files D.SwapDev files.old swap.old) (stores F.Files D.SwapDev files.new swap.new)) }
    ensures goes_on { GoesOn F.Files D.SwapDev result m.new files.old files.new swap.old swap.new }
{
    match page_for(m, pid, address, write)? {
        Ok(page) => match serve_page_now(m, files, swap, page, locked) {
            Ok(()) => Ok(Served::Valid),
            Err(stop) => Err(stop),
        },
        Err(served) => Ok(served),
    }
}
