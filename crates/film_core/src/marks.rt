//! What is known of a run beside its machine, told anew behind each entry: mark, lines, count. It is told by entries,
//! and must say what `run_model` says.
ghost use Rattle.std.specs.Prelude.{◌≡◌, ◌≤◌, ◌↔◌, true};
ghost use Rattle.flat_state.specs.Journal.{counted};
ghost use Rattle.machine_state.specs.Going.{IsRunning};
ghost use Rattle.vm_core.specs.LastMoves.{last_moves};
ghost use Rattle.page_laws.specs.Spans.{moves};
ghost use Rattle.run_model.specs.Next.{last_turned};
ghost use Rattle.vm_core.specs.Runners.{choice_of};
ghost use Rattle.run_model.specs.After.{swap_mark, completed, moved_on, brought_in, put_out, audited};
ghost use Rattle.film_core.specs.Marks.{marked_by, marked_if, mark_behind, lines_behind};

use machine_state::Machine;
use run_model::Mark;
use vm_core::swapper::{Turned, choose};
use vm_facts::{Entry, Event};

// The mark of a turn of the swapper that chose so.
fn swap_mark(chosen: Turned) -> Mark
    ensures { result ≡ swap_mark (choice_of chosen) }
{
    match chosen {
        Turned::In(pid) => Mark::BringIn { pid },
        Turned::Out(pid) => Mark::PutOut { pid },
        Turned::Nothing => Mark::Over,
    }
}

/// The mark of a line, where so many instructions are counted.
pub(crate) fn mark_of_event(m: &Machine, count: u32, e: Event) -> Mark
    requires running { IsRunning m.now }
    ensures { result ≡ marked_by m.now.kernel count e }
{
    match e {
        Event::Dispatch { pid, count: more } => Mark::Dispatch {
            pid,
            count: more,
            since: count,
        },
        Event::Interrupt => {
            if m.in_flight() == 0 {
                Mark::Over
            } else {
                Mark::Interrupt
            }
        }
        Event::Hands { count } => Mark::Hands { count },
        Event::Swapper => swap_mark(choose(m)),
        Event::Audit => Mark::Audit,
    }
}

// The same of a line that may not be there.
fn mark_if(m: &Machine, count: u32, e: Option<Event>) -> Mark
    requires running { IsRunning m.now }
    ensures { result ≡ marked_if m.now.kernel count e }
{
    match e {
        Some(e) => mark_of_event(m, count, e),
        None => Mark::Over,
    }
}

// What is still to come of a mark, once a transfer completed.
fn completed(mark: Mark) -> Mark
    ensures { result ≡ completed mark }
{
    match mark {
        Mark::Interrupt => Mark::Over,
        mark => mark,
    }
}

// Once the hands made so many moves.
fn moved_on(made: u32, mark: Mark) -> Mark
    ensures { result ≡ moved_on made mark }
{
    match mark {
        Mark::Hands { count } => Mark::Hands {
            count: count.saturating_sub(made),
        },
        mark => mark,
    }
}

// Once a process came in.
fn brought_in(mark: Mark) -> Mark
    ensures { result ≡ brought_in mark }
{
    match mark {
        Mark::BringIn { .. } => Mark::Over,
        mark => mark,
    }
}

// Once a process is out.
fn put_out(mark: Mark) -> Mark
    ensures { result ≡ put_out mark }
{
    match mark {
        Mark::PutOut { .. } => Mark::Over,
        mark => mark,
    }
}

// Once the numbers were noted.
fn audited(mark: Mark) -> Mark
    ensures { result ≡ audited mark }
{
    match mark {
        Mark::Audit => Mark::Over,
        mark => mark,
    }
}

/// What is still to come of the last mark behind an entry, which may begin another; a line's asks for this event.
pub(crate) fn mark_after(
    m: &Machine,
    count: u32,
    e: Option<Event>,
    mark: Mark,
    entry: &Entry,
) -> Mark
    requires running { IsRunning m.now }
    ensures { result ≡ mark_behind m.now.kernel count e mark entry.now }
{
    match entry {
        Entry::Event { .. } => mark_if(m, count, e),
        Entry::Turn { pid } => Mark::Turn {
            pid: *pid,
            since: count,
        },
        Entry::Hands { count: made } => moved_on(*made, mark),
        Entry::Done => completed(mark),
        Entry::SwapIn { .. } => brought_in(mark),
        Entry::SwapOut { .. } => put_out(mark),
        Entry::Owners { .. } => audited(mark),
        _ => mark,
    }
}

/// How many instructions an entry counts.
pub(crate) fn counted_by(e: &Entry) -> u32
    ensures { result ≡ counted e.now }
{
    match e {
        Entry::Ran { count, .. } => *count,
        Entry::Call { .. } | Entry::Ended { .. } => 1,
        _ => 0,
    }
}

/// How many lines are taken behind an entry.
pub(crate) fn lines_after(lines: u32, e: &Entry) -> u32
    ensures { result ≡ lines_behind lines e.now }
{
    match e {
        Entry::Event { line } => *line,
        _ => lines,
    }
}

/// The process of the last turn; 0 stands for none.
pub(crate) fn last_turned(mark: Mark) -> u32
    ensures { result ≡ last_turned mark }
{
    match mark {
        Mark::Turn { pid, .. } => pid,
        _ => 0,
    }
}

// How many moves of the hands an entry counts.
fn moves_counted(e: &Entry) -> u32
    ensures { result ≡ moves e.now }
{
    match e {
        Entry::Hands { count } => *count,
        _ => 0,
    }
}

/// Whether the last entry counts no more than a million moves of the hands.
pub(crate) fn has_few_moves(journal: &[Entry]) -> bool
    ensures { result ≡ true ↔ last_moves journal.now ≤ 1000000 }
{
    match journal.last() {
        Some(e) => moves_counted(e) <= 1_000_000,
        None => true,
    }
}
