//! Puts a process out, unit by unit, and brings one in. Transfers that name the space end first, then pages leave,
//! and the u page goes last; this order may not change.
ghost use Rattle.io_edge.specs.FileRequests.{FileNotes};
ghost use Rattle.io_edge.specs.WithFiles.{with_files, stores};
ghost use Rattle.std.specs.Prelude.{◌≡◌, ◌⊎◌, ℕ, ◌<◌, ◌≤◌, ◌&&◌, true, false, List, [], length, Option, OnOk, OnErr, IfErr};
ghost use Rattle.vm_facts.specs.SwapImages.{SwapImage};
ghost use Rattle.vm_facts.specs.declared.entry.Entry.TheVariants as entries;
ghost use Rattle.io_edge.specs.FileHolding.{NamedFile};
ghost use Rattle.page_model.specs.Placement.{is_dirty};
ghost use Rattle.page_model.specs.Runs.{run_put, is_seated};
ghost use Rattle.page_model.specs.Serve.{is_full};
ghost use Rattle.page_model.specs.Place.{pages_of_space};
ghost use Rattle.page_model.specs.Swapper.{is_out, put_out_unit, first_seated};
ghost use Rattle.kernel_model.specs.Asks.{HasSpace};
ghost use Rattle.machine_state.specs.Going.{CanGoOn, IsRunning};
ghost use Rattle.machine_state.specs.Calls.{CanComeIn};
ghost use Rattle.machine_state.specs.Conditions.{KeepsFlat};
ghost use Rattle.machine_state.specs.Done.{KeepsThrough};
ghost use Rattle.machine_state.specs.Settled.{IsSameBeside};
ghost use Rattle.machine_state.specs.Swapping.{AsksU, IsIn, KeepsIn, KeepsOut};
ghost use Rattle.machine_state.specs.Outside.{Asks, stop_of, MovesSwapPages, GoesOn};
ghost use Rattle.paging_units.specs.Made.{ground, MakesUnit};
ghost use Rattle.paging_units.specs.Stops.{StopsAt, StopsWhile};
ghost use Rattle.swapper.specs.Putting.{HasView, IsOfSegment, IsStepFor, IsStep, IsNext, HoldsThere, PutOut, putting_out};

use crate::seats::{first_seated, is_dirty};
use io_edge::{Files, SwapDev};
use kluster_io::pick_put;
use machine_state::Machine;
use proc_table::Life;
use space_map::SpaceMap;
use vm_facts::{MOST_IN_FLIGHT, Page, Stop};

/// A unit of putting a process out, but the last.
#[derive(Clone, Copy, Drop)]
enum Step {
    /// The oldest transfer ends.
    Wait,
    /// This page leaves its frame, with those after it that go along in one write.
    Put(Page),
}

// The space with this number.
fn space_of(m: &Machine, sid: u32) -> &SpaceMap
    requires running { IsRunning m.now }
    requires there { HasSpace m.now.kernel.place sid }
    ensures { HasView m.now.kernel.place sid result.now }
{
    match m.space(sid) {
        Some(space) => space,
        None => unreachable!(),
    }
}

// The unit for a page of the space that is to leave its frame.
fn step_for(m: &Machine, sid: u32, page: Page) -> Step
    requires running { IsRunning m.now }
    requires there { HasSpace m.now.kernel.place sid }
    requires own { IsOfSegment sid page }
    requires seated { is_seated m.now.kernel.place page ≡ true }
    ensures { IsStepFor m.now.kernel.place page result }
{
    if m.in_flight() < MOST_IN_FLIGHT {
        return Step::Put(page);
    }
    if is_dirty(m.core(), space_of(m, sid), page) {
        Step::Wait
    } else {
        Step::Put(page)
    }
}

/// The first page of a space, data first, that is in a frame off the free list.
pub fn seated_page(m: &Machine, sid: u32) -> Option<Page>
    requires running { IsRunning m.now }
    requires there { HasSpace m.now.kernel.place sid }
    ensures { result ≡ first_seated m.now.kernel.place (pages_of_space m.now.kernel.place sid) }
{
    first_seated(m.core(), space_of(m, sid))
}

// The unit that comes next; None where only the last is left.
fn next_step(m: &Machine, sid: u32) -> Option<Step>
    requires running { IsRunning m.now }
    requires there { HasSpace m.now.kernel.place sid }
    ensures { IsNext m.now.kernel.place sid result }
{
    if !m.settled(sid) {
        return Some(Step::Wait);
    }
    let page = seated_page(m, sid)?;
    Some(step_for(m, sid, page))
}

// How many pages leave their frames along with a page, itself among them.
fn run_of(m: &Machine, sid: u32, page: Page) -> u32
    requires running { IsRunning m.now }
    requires there { HasSpace m.now.kernel.place sid }
    requires own { IsOfSegment sid page }
    requires seated { is_seated m.now.kernel.place page ≡ true }
    ensures { result ≡ (run_put m.now.kernel.place page).n }
{
    pick_put(space_of(m, sid), m.core(), page)
}

// The oldest transfer ends.
fn complete<F: Files, D: SwapDev>(m: &mut Machine, files: &mut F, swap: &mut D) -> Result<(), Stop>
    requires asks { Asks m.old (F.holds files.old) (D.blocks swap.old) }
    requires some { 0 < length m.old.kernel.place.transfers }
    ensures made { OnOk result (MakesUnit (ground m.old (F.holds files.old) []) entries.Done m.old m.new (stores F.Files D.SwapDev files.old swap.old)
        (stores F.Files D.SwapDev files.new swap.new)) }
    ensures keeps { OnOk result (KeepsThrough m.old m.new (F.holds files.old) (stores F.Files D.SwapDev files.old swap.old)
        (stores F.Files D.SwapDev files.new swap.new)) }
    ensures stopped { IfErr result (StopsAt entries.Done m.old m.new (stores F.Files D.SwapDev files.old swap.old)
        (stores F.Files D.SwapDev files.new swap.new)) }
    ensures goes_on { GoesOn F.Files D.SwapDev result m.new files.old files.new swap.old swap.new }
{
    m.done(files, swap)?;
    Ok(())
}

// A page and those that go along leave their frames.
fn put_page(m: &mut Machine, sid: u32, page: Page) -> Result<(), Stop>
    requires ready { CanGoOn m.old }
    requires clear { m.old.kernel.place.due ≡ [] }
    requires there { HasSpace m.old.kernel.place sid }
    requires own { IsOfSegment sid page }
    requires seated { is_seated m.old.kernel.place page ≡ true }
    requires room { (is_dirty m.old.kernel.place page && is_full m.old.kernel.place) ≡ false }
    ensures made { (holds : Option (List NamedFile)) (i : Option SwapImage)
        → OnOk result (MakesUnit (ground m.old holds []) (entries.Put page (run_put m.old.kernel.place page).n) m.old m.new i i) }
    ensures keeps { OnOk result (KeepsFlat m.old.kernel m.new.kernel) }
    ensures stopped { (i : Option SwapImage)
        → IfErr result (StopsAt (entries.Put page (run_put m.old.kernel.place page).n) m.old m.new i i) }
    ensures cause { OnErr result ((result ≡ Err Stop.JournalFull) ⊎ (result ≡ Err Stop.NoMemory)) }
    ensures goes_on { OnOk result (CanGoOn m.new) }
{
    let n = run_of(m, sid, page);
    m.push(page, n)
}

// One unit of putting a process out, but the last.
fn put_once<F: Files, D: SwapDev>(
    m: &mut Machine,
    files: &mut F,
    swap: &mut D,
    _pid: u32,
    sid: u32,
    step: Step,
) -> Result<(), Stop>
    requires asks { Asks m.old (F.holds files.old) (D.blocks swap.old) }
    requires clear { m.old.kernel.place.due ≡ [] }
    requires there { HasSpace m.old.kernel.place sid }
    requires step { IsStep m.old.kernel.place sid step }
    ensures made { OnOk result (MakesUnit (ground m.old (F.holds files.old) []) (put_out_unit m.old.kernel.place _pid sid) m.old m.new
        (stores F.Files D.SwapDev files.old swap.old) (stores F.Files D.SwapDev files.new swap.new)) }
    ensures keeps { OnOk result (KeepsThrough m.old m.new (F.holds files.old) (stores F.Files D.SwapDev files.old swap.old)
        (stores F.Files D.SwapDev files.new swap.new)) }
    ensures stopped { IfErr result (StopsAt (put_out_unit m.old.kernel.place _pid sid) m.old m.new (stores F.Files D.SwapDev files.old swap.old)
        (stores F.Files D.SwapDev files.new swap.new)) }
    ensures goes_on { GoesOn F.Files D.SwapDev result m.new files.old files.new swap.old swap.new }
{
    match step {
        Step::Wait => complete(m, files, swap),
        Step::Put(page) => put_page(m, sid, page),
    }
}

// The last unit of putting a process out: its u page is written.
fn leave<D: SwapDev>(m: &mut Machine, swap: &mut D, pid: u32, sid: u32) -> Result<(), Stop>
    requires ready { CanGoOn m.old }
    requires area { m.old.params.swap_blocks ≤ D.blocks swap.old }
    requires clear { m.old.kernel.place.due ≡ [] }
    requires holds { HoldsThere m.old.kernel pid sid }
    requires resident { is_out m.old.kernel.place pid ≡ false }
    requires last { IsNext m.old.kernel.place sid None }
    ensures put { (notes : FileNotes) (holds : Option (List NamedFile)) → OnOk result
        (PutOut pid sid m.old m.new holds (with_files notes (D.image swap.old)) (with_files notes (D.image swap.new))) }
    ensures keeps { OnOk result (KeepsOut m.old.kernel m.new.kernel (D.image swap.old) (D.image swap.new)) }
    ensures stopped { (notes : FileNotes) (holds : Option (List NamedFile))
        → IfErr result (StopsWhile (putting_out pid sid) m.old m.new holds (with_files notes (D.image swap.old)) (with_files notes (D.image swap.new))) }
    ensures cause { OnErr result ((result ≡ Err Stop.JournalFull) ⊎ ((result ≡ Err Stop.NoMemory) ⊎ (result ≡ Err Stop.SwapWriteFault))) }
    ensures outside { MovesSwapPages D.SwapDev (stop_of result) swap.old swap.new }
    ensures goes_on { OnOk result (CanGoOn m.new) }
{
    m.u_out(swap, pid)
}

// Units of putting a process out, until it is out.
fn put_all<F: Files, D: SwapDev>(
    m: &mut Machine,
    files: &mut F,
    swap: &mut D,
    pid: u32,
    sid: u32,
) -> Result<(), Stop>
    requires asks { Asks m.old (F.holds files.old) (D.blocks swap.old) }
    requires clear { m.old.kernel.place.due ≡ [] }
    requires holds { HoldsThere m.old.kernel pid sid }
    requires resident { is_out m.old.kernel.place pid ≡ false }
    ensures put { OnOk result (PutOut pid sid m.old m.new (F.holds files.old) (stores F.Files D.SwapDev files.old swap.old)
        (stores F.Files D.SwapDev files.new swap.new)) }
    ensures keeps { OnOk result (KeepsThrough m.old m.new (F.holds files.old) (stores F.Files D.SwapDev files.old swap.old)
        (stores F.Files D.SwapDev files.new swap.new)) }
    ensures stopped { IfErr result (StopsWhile (putting_out pid sid) m.old m.new (F.holds files.old) (stores F.Files D.SwapDev files.old swap.old)
        (stores F.Files D.SwapDev files.new swap.new)) }
    ensures goes_on { GoesOn F.Files D.SwapDev result m.new files.old files.new swap.old swap.new }
{
    while let Some(step) = next_step(m, sid) {
        put_once(m, files, swap, pid, sid, step)?;
    }
    leave(m, swap, pid, sid)
}

// The space that a process holds.
fn held_by(m: &Machine, pid: u32) -> u32
    requires { (sid : ℕ) × HoldsThere m.now.kernel pid sid }
    ensures { HoldsThere m.now.kernel pid result }
{
    let Some(process) = m.processes().get(pid) else {
        unreachable!()
    };
    let Life::Holds(sid) = process.state else {
        unreachable!()
    };
    sid
}

/// Puts a process out that is in and holds a space: its pages leave their frames in turn, each dirty run by a
/// write that is waited for, and then its u page is written. Its record keeps no registers.
pub fn swap_out<F: Files, D: SwapDev>(
    m: &mut Machine,
    files: &mut F,
    swap: &mut D,
    pid: u32,
) -> Result<(), Stop>
    requires asks { Asks m.old (F.holds files.old) (D.blocks swap.old) }
    requires clear { m.old.kernel.place.due ≡ [] }
    requires holds { (sid : ℕ) × HoldsThere m.old.kernel pid sid }
    requires resident { is_out m.old.kernel.place pid ≡ false }
    ensures put { OnOk result ((sid : ℕ) × HoldsThere m.old.kernel pid sid
        × PutOut pid sid m.old m.new (F.holds files.old) (stores F.Files D.SwapDev files.old swap.old) (stores F.Files D.SwapDev files.new swap.new)) }
    ensures keeps { OnOk result (KeepsThrough m.old m.new (F.holds files.old) (stores F.Files D.SwapDev files.old swap.old)
        (stores F.Files D.SwapDev files.new swap.new)) }
    ensures stopped { IfErr result (λ stop. (sid : ℕ) × HoldsThere m.old.kernel pid sid
        × StopsWhile (putting_out pid sid) m.old m.new (F.holds files.old) (stores F.Files D.SwapDev files.old swap.old)
        (stores F.Files D.SwapDev files.new swap.new) stop) }
    ensures goes_on { GoesOn F.Files D.SwapDev result m.new files.old files.new swap.old swap.new }
{
    let sid = held_by(m, pid);
    put_all(m, files, swap, pid, sid)
}

/// Brings a process in that is out: its u page is read, which gives it its registers.
pub fn swap_in<D: SwapDev>(m: &mut Machine, swap: &mut D, pid: u32) -> Result<(), Stop>
    requires ready { CanGoOn m.old }
    requires area { m.old.params.swap_blocks ≤ D.blocks swap.old }
    requires can { CanComeIn m.old.kernel pid }
    ensures step { OnOk result (IsIn m.old.kernel m.new.kernel pid (D.image swap.old)) }
    ensures beside { OnOk result (IsSameBeside m.old m.new) }
    ensures keeps { OnOk result (KeepsIn m.old.kernel m.new.kernel pid (D.image swap.old) (D.image swap.new)) }
    ensures asked { OnOk result (AsksU m.old.kernel pid (D.image swap.old) (D.image swap.new)) }
    ensures stopped { IfErr result (StopsAt (entries.SwapIn pid) m.old m.new (D.image swap.old) (D.image swap.new)) }
    ensures cause { OnErr result ((result ≡ Err Stop.JournalFull) ⊎ ((result ≡ Err Stop.NoMemory) ⊎ (result ≡ Err Stop.SwapReadFault))) }
    ensures outside { MovesSwapPages D.SwapDev (stop_of result) swap.old swap.new }
    ensures goes_on { OnOk result (CanGoOn m.new) }
{
    m.u_in(swap, pid)
}
