//! Judges units that go into the journal alone: lines, turns, numbers of owners. The tables may not move.
ghost use Rattle.std.specs.Prelude.{◌≡◌, ◌+◌, ◌<◌, ◌^◌, None, IfOk};
ghost use Rattle.flat_state.specs.Flat.{Inputs};
ghost use Rattle.kernel_model.specs.Kernel.{note_step};
ghost use Rattle.machine_state.specs.Going.{CanGoOn};
ghost use Rattle.run_model.specs.State.{State};
ghost use Rattle.paged_model.specs.Steps.{same_owners, event_reason, owners_reason};
ghost use Rattle.step_judge.specs.Told.{GoesOnWith};
ghost use Rattle.repage_check.specs.Units.{AreOwnersOf, IsTableOf, IsMarkNote, note_reason};

use crate::past::Past;
use machine_state::Machine;
use paged_model::Reason;
use step_judge::move_judge::reasons::unless;
use step_judge::stuck;
use vm_core::owners_of;
use vm_facts::{Entry, NoMemory};

// The same entry again, of one that changes nothing.
fn note_of(u: &Entry) -> Entry
    requires { IsMarkNote u.now }
    ensures { result ≡ u.now }
{
    match u {
        Entry::Event { line } => Entry::Event { line: *line },
        Entry::Turn { pid } => Entry::Turn { pid: *pid },
        Entry::Owners {
            free,
            used,
            moving,
            held,
        } => Entry::Owners {
            free: *free,
            used: *used,
            moving: *moving,
            held: *held,
        },
        _ => unreachable!(),
    }
}

// Another line of a schedule comes next than this one.
fn event_reason(past: Past, line: u32) -> Option<Reason>
    requires { past.lines + 1 < 2 ^ 32 }
    ensures { (s : State) → s.lines ≡ past.lines → result ≡ event_reason s line }
{
    let next = past.lines + 1;
    unless(line == next, Reason::Comes(Entry::Event { line: next }))
}

fn same_owners(stands: &Entry, u: &Entry) -> bool
    ensures { result ≡ same_owners stands.now u.now }
{
    match stands {
        Entry::Owners {
            free,
            used,
            moving,
            held,
        } => match u {
            Entry::Owners {
                free: f,
                used: v,
                moving: m,
                held: h,
            } => *free == *f && *used == *v && *moving == *m && *held == *h,
            _ => false,
        },
        _ => false,
    }
}

// The numbers of frames and blocks are others than these.
fn owners_reason(m: &Machine, u: &Entry) -> Option<Reason>
    requires { CanGoOn m.now }
    ensures { (s : State) → AreOwnersOf m.now.kernel s → result ≡ owners_reason s u.now }
{
    let stands = owners_of(m);
    unless(same_owners(&stands, u), Reason::Comes(stands))
}

fn note_reason(m: &Machine, past: Past, u: &Entry) -> Option<Reason>
    requires ready { CanGoOn m.now }
    requires lines { past.lines + 1 < 2 ^ 32 }
    requires note { IsMarkNote u.now }
    ensures { (A : Inputs) (s : State) → IsTableOf m.now.kernel past s → result ≡ note_reason A s u.now }
{
    match u {
        Entry::Event { line } => event_reason(past, *line),
        Entry::Turn { pid } => stuck(m, *pid),
        Entry::Owners { .. } => owners_reason(m, u),
        _ => unreachable!(),
    }
}

/// A line of a schedule, a turn, or the numbers of frames and blocks: where it may come it was noted, and else the first reason is told for which
/// it can't.
pub(crate) fn judge_note(m: &mut Machine, past: Past, u: &Entry) -> Result<Option<Reason>, NoMemory>
    requires ready { CanGoOn m.old }
    requires lines { past.lines + 1 < 2 ^ 32 }
    requires note { IsMarkNote u.now }
    ensures judged { IfOk result (λ reason. (A : Inputs) (s : State) → IsTableOf m.old.kernel past s → reason ≡ note_reason A s u.now) }
    ensures made { IfOk result (λ reason. reason ≡ None → m.new.kernel ≡ note_step m.old.kernel u.now) }
    ensures on { IfOk result (λ reason. reason ≡ None → GoesOnWith m.old m.new) }
{
    match note_reason(m, past, u) {
        Some(reason) => Ok(Some(reason)),
        None => match m.note(note_of(u)) {
            Ok(()) => Ok(None),
            Err(_) => Err(NoMemory),
        },
    }
}
