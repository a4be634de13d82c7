//! The rest of a step that its first entry began. The journal's end alone tells what is left; nothing but ends of
//! transfers may lie between.
ghost use Rattle.io_edge.specs.WithFiles.{stores};
ghost use Rattle.std.specs.Prelude.{◌≡◌, ◌+◌, Some, OnOk, IfErr};
ghost use Rattle.flat_state.specs.Journal.{instructions_of};
ghost use Rattle.flat_state.specs.declared.change.Change.TheVariants.{Keep};
ghost use Rattle.flat_model.specs.Calls.{replied};
ghost use Rattle.machine_state.specs.Going.{CanGoOn};
ghost use Rattle.machine_state.specs.Outside.{IsBacked, stop_of, TransfersPages};
ghost use Rattle.machine_state.specs.UserMemory.{CanLend};
ghost use Rattle.step_units.specs.Stops.{StopsBefore};
ghost use Rattle.step_units.specs.Answered.{Answered};
ghost use Rattle.step_units.specs.Sizes.{KeptAtStop};
ghost use Rattle.step_units.specs.Rests.{is_done, before_done};
ghost use Rattle.step_units.specs.Stepped.{AtSome, LeadsFrom, StopsFrom, StepLeads};
ghost use Rattle.proc_run.specs.Rests.{begun_by, pid_of, carry_of, r0_of, SentFew, BegunIsTold, NoneIsBetween, BegunAt};
ghost use Rattle.proc_run.specs.Running.{CountsTo};
ghost use Rattle.proc_run.specs.Runs.{IsSteady};

use crate::attempting::attempt;
use crate::choosing::ready_regs;
use flat_model::SystemCall;
use io_edge::{Files, SwapDev};
use machine_state::Machine;
use step_units::proc_calls::{Called, answer_refused, answer_sent, kill};
use user_vax::{SIGSEGV, Stepped};
use vm_facts::{Entry, Regs, Stop};

/// How a step is begun that isn't complete.
#[derive(Clone, Copy, Debug, PartialEq, Eq, Drop)]
pub enum Begun {
    /// So many bytes of this process went out.
    Sent { pid: u32, count: usize },
    /// The pieces that this process asks for find no place.
    Refused { pid: u32 },
}

// How an entry begins a step that isn't complete with it.
fn begun_by(e: &Entry) -> Option<Begun>
    ensures { result ≡ begun_by (Some e.now) }
{
    match e {
        Entry::Out { pid, bytes } => Some(Begun::Sent {
            pid: *pid,
            count: bytes.as_slice().len(),
        }),
        Entry::Refused { pid } => Some(Begun::Refused { pid: *pid }),
        _ => None,
    }
}

// Whether an entry is the end of a transfer.
fn is_done(e: &Entry) -> bool
    ensures { result ≡ is_done e.now }
{
    matches!(e, Entry::Done)
}

/// How a step is begun at the end of a journal: since its first entry nothing but transfers ended.
pub fn begun_step(journal: &[Entry]) -> Option<Begun>
    ensures { result ≡ begun_by (before_done journal.now) }
{
    let mut left = journal.len();
    while left > 0 {
        left -= 1;
        let e = &journal[left];
        if !is_done(e) {
            return begun_by(e);
        }
    }
    None
}

/// Along a run the journal tells how a step is begun; where none is, the last one is complete.
pub fn begun_steps_are_told()
    ensures told { BegunIsTold }
    ensures none { NoneIsBetween }
{}

/// The process whose step is begun.
pub fn pid_of(begun: Begun) -> u32
    ensures { result ≡ pid_of begun }
{
    match begun {
        Begun::Sent { pid, .. } | Begun::Refused { pid } => pid,
    }
}

// The reply of the call that ends the step.
fn answer(
    m: &mut Machine,
    pid: u32,
    call: SystemCall,
    regs: &Regs,
    begun: Begun,
) -> Result<Called, Stop>
    requires steady { IsSteady m.old }
    requires lends { CanLend m.old.kernel pid }
    requires short { SentFew begun }
    ensures answered { OnOk result (Answered m.old m.new pid call (replied regs.now (carry_of begun) (r0_of begun)) Keep) }
    ensures stops { IfErr result (StopsBefore m.old m.new) }
    ensures goes_on { OnOk result (CanGoOn m.new) }
{
    match begun {
        Begun::Sent { count, .. } => answer_sent(m, pid, call, regs, count as u32),
        Begun::Refused { .. } => answer_refused(m, pid, call, regs),
    }
}

/// The rest of a step: the reply of its call, or the end of a process whose stack can't grow.
pub fn finish_step<F: Files, D: SwapDev>(
    m: &mut Machine,
    files: &mut F,
    swap: &mut D,
    begun: Begun,
) -> Result<(), Stop>
    requires steady { IsSteady m.old }
    requires begun { AtSome (BegunAt m.old begun (F.holds files.old) (stores F.Files D.SwapDev files.old swap.old)) }
    requires backed { IsBacked m.old (F.holds files.old) (D.blocks swap.old) }
    ensures finishes { OnOk result (LeadsFrom (BegunAt m.old begun (F.holds files.old) (stores F.Files D.SwapDev files.old swap.old))
        (λ A s image. StepLeads A s m.old.kernel image 1 m.new.kernel (stores F.Files D.SwapDev files.new swap.new))) }
    ensures stops { IfErr result (StopsFrom (BegunAt m.old begun (F.holds files.old) (stores F.Files D.SwapDev files.old swap.old)) m.old m.new
        (stores F.Files D.SwapDev files.new swap.new)) }
    ensures counts { OnOk result (CountsTo m.old m.new (instructions_of m.old.kernel.journal) (instructions_of m.old.kernel.journal + 1)) }
    ensures kept { IfErr result (KeptAtStop m.old m.new) }
    ensures outside { TransfersPages F.Files D.SwapDev (stop_of result) files.old files.new swap.old swap.new }
{
    let pid = pid_of(begun);
    let Some(before) = ready_regs(m, pid) else {
        unreachable!()
    };
    let mut regs = before;
    match attempt(m, pid, &mut regs) {
        Stepped::Call(number) => {
            let Some(call) = SystemCall::numbered(number) else {
                unreachable!()
            };
            answer(m, pid, call, &regs, begun)?;
            Ok(())
        }
        Stepped::Below { .. } => kill(m, files, swap, pid, SIGSEGV),
        Stepped::Done | Stepped::Miss { .. } | Stepped::Signal(_) => unreachable!(),
    }
}
