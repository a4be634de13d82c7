//! The pages that an instruction touches before the first that isn't valid, and that one, whether the instruction is
//! carried out or not. What a trial writes may reach no frame.
ghost use Rattle.std.specs.Prelude.{◌≡◌, ◌↔◌, Bool, true, List, IfOk};
ghost use Rattle.user_vax.specs.Program.{run};
ghost use Rattle.user_vax.specs.Instruction.{instruction, answer_of};
ghost use Rattle.flat_state.specs.Flat.{NamedImage, FlatState, Process, Inputs};
ghost use Rattle.flat_state.specs.Space.{Space};
ghost use Rattle.machine_state.specs.Going.{CanGoOn};
ghost use Rattle.machine_state.specs.UserMemory.{CanLend};
ghost use Rattle.run_model.specs.State.{State};
ghost use Rattle.run_model.specs.Wanted.{locked, wanted};
ghost use Rattle.step_units.specs.Growth.{space_of_pid};
ghost use Rattle.step_units.specs.Reading.{AreNamed};
ghost use Rattle.proc_run.specs.Shown.{shown_in};
ghost use Rattle.proc_run.specs.Missed.{first_missed, page_missed};
ghost use Rattle.proc_run.specs.Touching.{RunsWith};

use crate::shown::Shown;
use crate::touched::Touched;
use crate::touching::{first_missed, page_at, valid_only};
use machine_state::Machine;
use std::alloc::Global;
use user_step::completes;
use user_vax::Stepped;
use vm_facts::{NoMemory, Page, Regs};

/// The pages before the first that isn't valid, and that one.
#[derive(Drop)]
pub struct Touches {
    pub before: Touched,
    pub wanted: Option<Page>,
}

// Whether an instruction is carried out, and makes no call, where these pages alone are shown. It is tried over a memory that
// keeps to itself what is written.
fn completes_shown(
    alloc: Global,
    m: &mut Machine,
    pid: u32,
    regs: &Regs,
    pages: &[Page],
) -> Result<bool, NoMemory>
    requires ready { CanGoOn m.old }
    requires lends { CanLend m.old.kernel pid }
    ensures value { IfOk result (λ done. (done ≡ true)
        ↔ (answer_of (run (shown_in m.old.kernel (space_of_pid m.old.kernel pid) pages.now) (instruction regs.now)) ≡ Stepped.Done)) }
    ensures same { m.new ≡ m.old }
{
    let shown = Shown {
        memory: m.memory(pid),
        pages,
    };
    completes(alloc, &shown, regs)
}

// The first byte that misses where these pages alone are shown. None misses where the instruction is carried out.
fn missed_by_any(
    alloc: Global,
    m: &mut Machine,
    pid: u32,
    regs: &Regs,
    pages: &[Page],
) -> Result<Option<u32>, NoMemory>
    requires ready { CanGoOn m.old }
    requires lends { CanLend m.old.kernel pid }
    ensures value { (known : List NamedImage) (F : FlatState) (p : Process) (s : Space) → AreNamed known m.old.images
        → IfOk result (λ byte. byte ≡ first_missed known F p s (shown_in m.old.kernel (space_of_pid m.old.kernel pid) pages.now) regs.now) }
    ensures same { m.new ≡ m.old }
{
    if completes_shown(alloc, m, pid, regs, pages)? {
        Ok(None)
    } else {
        first_missed(alloc, m, pid, regs, pages)
    }
}

// The first page that an instruction and its call touch beyond these.
fn page_beyond(
    alloc: Global,
    m: &mut Machine,
    pid: u32,
    regs: &Regs,
    pages: &[Page],
) -> Result<Option<Page>, NoMemory>
    requires ready { CanGoOn m.old }
    requires lends { CanLend m.old.kernel pid }
    ensures value { (known : List NamedImage) (F : FlatState) (p : Process) (s : Space) → AreNamed known m.old.images
        → IfOk result
        (λ page. page ≡ page_missed m.old.kernel pid (first_missed known F p s (shown_in m.old.kernel (space_of_pid m.old.kernel pid) pages.now) regs.now)) }
    ensures same { m.new ≡ m.old }
{
    match missed_by_any(alloc, m, pid, regs, pages)? {
        Some(address) => Ok(page_at(m, pid, address)),
        None => Ok(None),
    }
}

/// The pages that a process's next instruction touches, and its call, before the first one that isn't valid, in order, and
/// that one. Nothing is written.
pub fn touched_and_wanted(
    alloc: Global,
    m: &mut Machine,
    pid: u32,
    regs: &Regs,
) -> Result<Touches, NoMemory>
    requires ready { CanGoOn m.old }
    requires lends { CanLend m.old.kernel pid }
    ensures before { (A : Inputs) (s : State) (now : Bool) → RunsWith A s now m.old pid regs.now → IfOk result (λ found. found.before ≡ locked A s) }
    ensures first { (A : Inputs) (s : State) (now : Bool) → RunsWith A s now m.old pid regs.now → IfOk result (λ found. found.wanted ≡ wanted A s) }
    ensures same { m.new ≡ m.old }
{
    let mut touched = Touched::none();
    while !touched.is_full() {
        let beyond = page_beyond(alloc, m, pid, regs, touched.as_slice())?;
        match valid_only(m, beyond) {
            Some(page) => touched.push(page),
            None => {
                return Ok(Touches {
                    before: touched,
                    wanted: beyond,
                });
            }
        }
    }
    Ok(Touches {
        before: touched,
        wanted: None,
    })
}
