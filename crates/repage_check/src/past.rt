//! What is known of a paged run beside its machine: lines, last mark, count, begun step. It must be told anew after
//! each unit.
ghost use Rattle.std.specs.Prelude.{◌≡◌, ◌+◌, ◌<◌, ◌^◌, not};
ghost use Rattle.flat_state.specs.Journal.{counted};
ghost use Rattle.machine_state.specs.Going.{IsRunning};
ghost use Rattle.paged_model.specs.Runs.{turn_mark, out_mark, in_mark};
ghost use Rattle.step_judge.specs.Choosing.{may_run};
ghost use Rattle.repage_check.specs.Past.{lines_next, turn_out, mark_next, begun_next, past_next};
ghost use Rattle.repage_check.specs.Units.{begun_reason};

use machine_state::Machine;
use paged_model::Reason;
use run_model::Mark;
use step_judge::proc_run::{Begun, pid_of, ready_regs};
use vm_facts::Entry;

/// So many lines of a schedule were taken; the last mark; how many instructions were counted; and how a step is begun, if one is.
#[derive(Clone, Copy, Debug, PartialEq, Eq, Drop)]
pub struct Past {
    pub lines: u32,
    pub mark: Mark,
    pub counted: u32,
    pub begun: Option<Begun>,
}

/// The step of a process is begun so.
pub fn begun_reason(begun: Option<Begun>) -> Option<Reason>
    ensures { result ≡ begun_reason begun }
{
    match begun {
        None => None,
        Some(begun) => Some(Reason::Begun(pid_of(begun))),
    }
}

fn lines_next(lines: u32, u: &Entry) -> u32
    requires { lines + 1 < 2 ^ 32 }
    ensures { result ≡ lines_next lines u.now }
{
    match u {
        Entry::Event { .. } => lines + 1,
        _ => lines,
    }
}

// Whether a process can't run at once.
fn is_away(m: &Machine, pid: u32) -> bool
    requires { IsRunning m.now }
    ensures { result ≡ not (may_run m.now.kernel pid) }
{
    match ready_regs(m, pid) {
        Some(_) => false,
        None => true,
    }
}

/// Whether a unit is a turn of a process that is out, where it may come.
pub fn turn_out(m: &Machine, u: &Entry) -> bool
    requires { IsRunning m.now }
    ensures { result ≡ turn_out m.now.kernel u.now }
{
    match u {
        Entry::Turn { pid } => is_away(m, *pid),
        _ => false,
    }
}

fn turn_mark(out: bool, pid: u32, count: u32) -> Mark
    ensures { result ≡ turn_mark out pid count }
{
    if out {
        Mark::BringIn { pid }
    } else {
        Mark::Turn { pid, since: count }
    }
}

fn out_mark(pid: u32, mark: Mark) -> Mark
    ensures { result ≡ out_mark pid mark }
{
    match mark {
        Mark::Turn { pid: p, since } => {
            if p == pid {
                Mark::BringIn { pid: p }
            } else {
                Mark::Turn { pid: p, since }
            }
        }
        _ => mark,
    }
}

fn in_mark(pid: u32, count: u32, mark: Mark) -> Mark
    ensures { result ≡ in_mark pid count mark }
{
    match mark {
        Mark::BringIn { pid: p } => {
            if p == pid {
                Mark::Turn {
                    pid: p,
                    since: count,
                }
            } else {
                Mark::BringIn { pid: p }
            }
        }
        _ => mark,
    }
}

fn mark_next(out: bool, count: u32, mark: Mark, u: &Entry) -> Mark
    ensures { result ≡ mark_next out count mark u.now }
{
    match u {
        Entry::Event { .. } => Mark::Over,
        Entry::Turn { pid } => turn_mark(out, *pid, count),
        Entry::SwapOut { pid } => out_mark(*pid, mark),
        Entry::SwapIn { pid } => in_mark(*pid, count, mark),
        _ => mark,
    }
}

fn counted_by(u: &Entry) -> u32
    ensures { result ≡ counted u.now }
{
    match u {
        Entry::Ran { count, .. } => *count,
        Entry::Call { .. } => 1,
        Entry::Ended { .. } => 1,
        _ => 0,
    }
}

fn begun_next(begun: Option<Begun>, u: &Entry) -> Option<Begun>
    ensures { result ≡ begun_next begun u.now }
{
    match u {
        Entry::Ran { .. } => None,
        Entry::Out { pid, bytes } => Some(Begun::Sent {
            pid: *pid,
            count: bytes.as_slice().len(),
        }),
        Entry::Grew { .. } => None,
        Entry::Call { .. } => None,
        Entry::Refused { pid } => Some(Begun::Refused { pid: *pid }),
        Entry::Sleeps { .. } => None,
        Entry::Ended { .. } => None,
        _ => begun,
    }
}

/// What is known after a unit, by whether it is a turn of a process that is out.
pub fn past_next(out: bool, past: Past, u: &Entry) -> Past
    requires lines { past.lines + 1 < 2 ^ 32 }
    requires counts { past.counted + counted u.now < 2 ^ 32 }
    ensures { result ≡ past_next out past u.now }
{
    Past {
        lines: lines_next(past.lines, u),
        mark: mark_next(out, past.counted, past.mark, u),
        counted: past.counted + counted_by(u),
        begun: begun_next(past.begun, u),
    }
}
