//! What keeps a process from a step, before its pages are looked at. The order of the reasons may not change, and
//! nothing is moved.
ghost use Rattle.std.specs.Prelude.{◌≡◌, nat_lt};
ghost use Rattle.flat_state.specs.Flat.{Inputs};
ghost use Rattle.kernel_model.specs.Coupled.{SameTables};
ghost use Rattle.machine_state.specs.Going.{IsRunning};
ghost use Rattle.run_model.specs.State.{State};
ghost use Rattle.paged_model.specs.declared.reason.Reason.TheVariants as reasons;
ghost use Rattle.paged_model.specs.Reasons.{unless, or_reason};
ghost use Rattle.paged_model.specs.Moves.{due_first};
ghost use Rattle.paged_model.specs.Steps.{stuck};
ghost use Rattle.step_judge.specs.Told.{other_by, first_reasons};

use machine_state::Machine;
use move_judge::looking::due_first;
use move_judge::reasons::unless;
use move_judge::record_of;
use paged_model::Reason;
use proc_run::{Begun, can_step, pid_of};

fn too_many(counted: u32) -> Option<Reason>
    ensures { result ≡ unless (nat_lt counted 1000000) reasons.TooMany }
{
    unless(counted < 1_000_000, Reason::TooMany)
}

/// Why a process can't step.
pub fn stuck(m: &Machine, pid: u32) -> Option<Reason>
    requires { IsRunning m.now }
    ensures { (A : Inputs) (s : State) → SameTables m.now.kernel s.point.flat → result ≡ stuck A s pid }
{
    match record_of(m, pid) {
        None => Some(Reason::NoProcess(pid)),
        Some(process) => unless(can_step(&process), Reason::CannotStep(pid)),
    }
}

fn other_begun(begun: Option<Begun>, pid: u32) -> Option<Reason>
    ensures { result ≡ other_by begun pid }
{
    match begun {
        None => None,
        Some(begun) => {
            let of = pid_of(begun);
            unless(of == pid, Reason::Begun(of))
        }
    }
}

// Why another thing comes first than a step of this process.
fn not_next(m: &Machine, begun: Option<Begun>, pid: u32) -> Option<Reason>
    ensures { result ≡ or_reason (other_by begun pid) (due_first m.now.kernel.place.due) }
{
    match other_begun(begun, pid) {
        Some(reason) => Some(reason),
        None => due_first(m),
    }
}

// The same, and why it can't step.
fn not_able(m: &Machine, begun: Option<Begun>, pid: u32) -> Option<Reason>
    requires { IsRunning m.now }
    ensures { (A : Inputs) (s : State) → SameTables m.now.kernel s.point.flat
        → result ≡ or_reason (stuck A s pid) (or_reason (other_by begun pid) (due_first m.now.kernel.place.due)) }
{
    match stuck(m, pid) {
        Some(reason) => Some(reason),
        None => not_next(m, begun, pid),
    }
}

/// Why a process doesn't step, but for where it is and its pages, where so many instructions are counted and a step is begun so.
pub fn not_ready(m: &Machine, counted: u32, begun: Option<Begun>, pid: u32) -> Option<Reason>
    requires { IsRunning m.now }
    ensures { (A : Inputs) (s : State) → SameTables m.now.kernel s.point.flat
        → result ≡ first_reasons A s counted begun m.now.kernel.place.due pid }
{
    match too_many(counted) {
        Some(reason) => Some(reason),
        None => not_able(m, begun, pid),
    }
}
