//! Finds the pages that an instruction touches, one more by each trial. The instruction must be one that is refused
//! or makes a call, so that a trial writes nothing.
ghost use Rattle.std.specs.Prelude.{◌≡◌, ◌≤◌, Bool, false, List, [], length, Some, IfOk};
ghost use Rattle.user_vax.specs.Program.{run};
ghost use Rattle.user_vax.specs.Instruction.{instruction, answer_of, registers_after, writes_of};
ghost use Rattle.flat_state.specs.Flat.{NamedImage, FlatState, Process, Inputs};
ghost use Rattle.flat_state.specs.Space.{Space};
ghost use Rattle.page_model.specs.Pages.{is_valid};
ghost use Rattle.page_model.specs.Placement.{state_of};
ghost use Rattle.machine_state.specs.Going.{CanGoOn, IsRunning};
ghost use Rattle.machine_state.specs.UserMemory.{CanLend, page_in};
ghost use Rattle.run_model.specs.State.{State};
ghost use Rattle.run_model.specs.Wanted.{locked};
ghost use Rattle.step_units.specs.Growth.{space_of_pid};
ghost use Rattle.step_units.specs.Reading.{AreNamed};
ghost use Rattle.proc_run.specs.Shown.{shown_in};
ghost use Rattle.proc_run.specs.Missed.{missed_byte, missed_by_call, first_missed, page_missed, valid_only, WritesNothing};
ghost use Rattle.proc_run.specs.Touching.{RunsWith};

use crate::reading::read_call;
use crate::shown::Shown;
use crate::touched::Touched;
use flat_model::{Asked, SystemCall};
use machine_state::Machine;
use std::alloc::Global;
use user_step::step;
use user_vax::{Refused, Stepped};
use vm_facts::{NoMemory, Page, PageState, Regs};

// What an instruction comes to where these pages alone are shown, and it writes nothing.
fn try_step(m: &mut Machine, pid: u32, regs: &mut Regs, pages: &[Page]) -> Stepped
    requires ready { CanGoOn m.old }
    requires lends { CanLend m.old.kernel pid }
    requires quiet { writes_of (run (shown_in m.old.kernel (space_of_pid m.old.kernel pid) pages.now) (instruction regs.old)) ≡ [] }
    ensures answer { result ≡ answer_of (run (shown_in m.old.kernel (space_of_pid m.old.kernel pid) pages.now) (instruction regs.old)) }
    ensures registers { regs.new ≡ registers_after regs.old (run (shown_in m.old.kernel (space_of_pid m.old.kernel pid) pages.now) (instruction regs.old)) }
    ensures same { m.new ≡ m.old }
{
    let mut shown = Shown {
        memory: m.memory(pid),
        pages,
    };
    step(regs, &mut shown)
}

fn missed_byte(asked: Asked<()>) -> Option<u32>
    ensures { result ≡ missed_byte asked }
{
    match asked {
        Err(Refused::Miss { address, .. }) => Some(address),
        Err(Refused::Below { .. } | Refused::Signal(_)) | Ok(()) => None,
    }
}

// The first byte that misses in what a call reads, if one is made.
fn missed_by_call(
    alloc: Global,
    m: &mut Machine,
    pid: u32,
    call: Option<SystemCall>,
    regs: &Regs,
    pages: &[Page],
) -> Result<Option<u32>, NoMemory>
    requires ready { CanGoOn m.old }
    requires lends { CanLend m.old.kernel pid }
    ensures value { (known : List NamedImage) (F : FlatState) (p : Process) (s : Space) → AreNamed known m.old.images
        → IfOk result (λ byte. byte ≡ missed_by_call known F p s (shown_in m.old.kernel (space_of_pid m.old.kernel pid) pages.now) regs.now call) }
    ensures same { m.new ≡ m.old }
{
    match call {
        Some(call) => Ok(missed_byte(read_call(alloc, m, pid, call, regs, pages)?)),
        None => Ok(None),
    }
}

/// The first byte that misses in what an instruction reads or tests where these pages alone are shown, or else in what
/// its call reads. The instruction writes nothing then.
pub fn first_missed(
    alloc: Global,
    m: &mut Machine,
    pid: u32,
    regs: &Regs,
    pages: &[Page],
) -> Result<Option<u32>, NoMemory>
    requires ready { CanGoOn m.old }
    requires lends { CanLend m.old.kernel pid }
    requires quiet { writes_of (run (shown_in m.old.kernel (space_of_pid m.old.kernel pid) pages.now) (instruction regs.now)) ≡ [] }
    ensures value { (known : List NamedImage) (F : FlatState) (p : Process) (s : Space) → AreNamed known m.old.images
        → IfOk result (λ byte. byte ≡ first_missed known F p s (shown_in m.old.kernel (space_of_pid m.old.kernel pid) pages.now) regs.now) }
    ensures same { m.new ≡ m.old }
{
    let mut after = *regs;
    match try_step(m, pid, &mut after, pages) {
        Stepped::Miss { address, .. } => Ok(Some(address)),
        Stepped::Call(number) => {
            missed_by_call(alloc, m, pid, SystemCall::numbered(number), &after, pages)
        }
        Stepped::Done | Stepped::Below { .. } | Stepped::Signal(_) => Ok(None),
    }
}

/// The page of an address of a process.
pub fn page_at(m: &mut Machine, pid: u32, address: u32) -> Option<Page>
    requires ready { CanGoOn m.old }
    requires lends { CanLend m.old.kernel pid }
    ensures page { result ≡ page_in m.old.kernel.place (space_of_pid m.old.kernel pid) address }
    ensures same { m.new ≡ m.old }
{
    m.memory(pid).page_of(address)
}

// The first page that an instruction and its call touch beyond these. Where there are none it is the page of the instruction's
// first byte, for which nothing is tried.
fn next_page(
    alloc: Global,
    m: &mut Machine,
    pid: u32,
    regs: &Regs,
    pages: &[Page],
) -> Result<Option<Page>, NoMemory>
    requires ready { CanGoOn m.old }
    requires lends { CanLend m.old.kernel pid }
    requires quiet { WritesNothing m.old.kernel pid regs.now }
    ensures value { (known : List NamedImage) (F : FlatState) (p : Process) (s : Space) → AreNamed known m.old.images
        → IfOk result
        (λ page. page ≡ page_missed m.old.kernel pid (first_missed known F p s (shown_in m.old.kernel (space_of_pid m.old.kernel pid) pages.now) regs.now)) }
    ensures same { m.new ≡ m.old }
{
    if pages.is_empty() {
        return Ok(page_at(m, pid, regs.r[15]));
    }
    match first_missed(alloc, m, pid, regs, pages)? {
        Some(address) => Ok(page_at(m, pid, address)),
        None => Ok(None),
    }
}

fn is_valid(m: &Machine, page: Page) -> bool
    requires { IsRunning m.now }
    ensures { result ≡ is_valid (state_of m.now.kernel.place page) }
{
    matches!(m.state_of(page), Some(PageState::Valid(_)))
}

/// A page, where it is valid.
pub fn valid_only(m: &Machine, page: Option<Page>) -> Option<Page>
    requires { IsRunning m.now }
    ensures { result ≡ valid_only m.now.kernel.place page }
{
    match page {
        Some(page) if is_valid(m, page) => Some(page),
        _ => None,
    }
}

// That page, where it is valid.
fn next_valid(
    alloc: Global,
    m: &mut Machine,
    pid: u32,
    regs: &Regs,
    pages: &[Page],
) -> Result<Option<Page>, NoMemory>
    requires ready { CanGoOn m.old }
    requires lends { CanLend m.old.kernel pid }
    requires quiet { WritesNothing m.old.kernel pid regs.now }
    ensures value { (known : List NamedImage) (F : FlatState) (p : Process) (s : Space) → AreNamed known m.old.images
        → IfOk result (λ page. page ≡ valid_only m.old.kernel.place
        (page_missed m.old.kernel pid (first_missed known F p s (shown_in m.old.kernel (space_of_pid m.old.kernel pid) pages.now) regs.now))) }
    ensures same { m.new ≡ m.old }
{
    let page = next_page(alloc, m, pid, regs, pages)?;
    Ok(valid_only(m, page))
}

/// The pages that a process's next instruction touches, and its call, before the first one that isn't valid, in order.
/// The instruction writes nothing over the frames: it makes a call, or isn't carried out.
pub fn touched_before(
    alloc: Global,
    m: &mut Machine,
    pid: u32,
    regs: &Regs,
) -> Result<Touched, NoMemory>
    requires ready { CanGoOn m.old }
    requires lends { CanLend m.old.kernel pid }
    requires quiet { WritesNothing m.old.kernel pid regs.now }
    ensures before { (A : Inputs) (s : State) (now : Bool) → RunsWith A s now m.old pid regs.now → IfOk result (λ touched. touched ≡ locked A s) }
    ensures few { IfOk result (λ touched. length touched ≤ 32) }
    ensures same { m.new ≡ m.old }
{
    let mut touched = Touched::none();
    while !touched.is_full() {
        match next_valid(alloc, m, pid, regs, touched.as_slice())? {
            Some(page) => touched.push(page),
            None => return Ok(touched),
        }
    }
    Ok(touched)
}
