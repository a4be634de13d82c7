//! One turn of the swapper: it chooses, and then does what it chose. One process moves at most.
ghost use Rattle.io_edge.specs.WithFiles.{stores};
ghost use Rattle.std.specs.Prelude.{◌≡◌, [], OnOk, IfOk, IfErr};
ghost use Rattle.std.specs.List.{filter};
ghost use Rattle.page_model.specs.Placement.{Placement};
ghost use Rattle.page_model.specs.Swapper.{swap_choice, choice_of_out, brings, longest, may_come_in, may_go_out};
ghost use Rattle.machine_state.specs.Going.{IsRunning};
ghost use Rattle.machine_state.specs.Alike.{AreRecords};
ghost use Rattle.machine_state.specs.Machine.{processes_of, residents_of};
ghost use Rattle.machine_state.specs.Outside.{Asks, GoesOn};
ghost use Rattle.swapper.specs.Runners.{runners_in, runners_of, HasResidents, choice_of, in_choice, out_choice};
ghost use Rattle.swapper.specs.declared.Turned.{Turned as Chosen};
ghost use Rattle.swapper.specs.Turns.{MayTurn, Turns, KeepsTurn, StopsTurning};

use crate::Turned;
use crate::candidates::{Kind, longest};
use crate::largest::longest_of_largest;
use crate::putting_out::{swap_in, swap_out};
use io_edge::{Files, SwapDev};
use machine_state::Machine;
use proc_table::ProcTable;
use vm_facts::Stop;

// The process that comes in: out longest of those that could step.
fn choose_in(processes: &ProcTable, next: u32) -> Option<u32>
    requires { AreRecords processes.now next }
    ensures { (p : Placement) → HasResidents p processes.now next
        → in_choice result ≡ brings (longest p (filter (may_come_in p) (runners_in (processes_of processes.now next)))) }
{
    match longest(processes, next, Kind::ComesIn) {
        Some(seen) => Some(seen.pid),
        None => None,
    }
}

// The process that goes out, a sleeper before all others.
fn choose_out(m: &Machine, processes: &ProcTable, next: u32) -> Option<u32>
    requires running { IsRunning m.now }
    requires residents { m.now.kernel.place.residents ≡ residents_of processes.now next }
    requires records { AreRecords processes.now next }
    ensures { out_choice result
        ≡ choice_of_out m.now.kernel.place (filter (may_go_out m.now.kernel.place) (runners_in (processes_of processes.now next))) }
{
    if let Some(seen) = longest(processes, next, Kind::Sleeper) {
        return Some(seen.pid);
    }
    match longest_of_largest(m, processes, next) {
        Some(seen) => Some(seen.pid),
        None => None,
    }
}

/// What a turn is to do.
pub fn choose(m: &Machine) -> Turned
    requires { IsRunning m.now }
    ensures { choice_of result ≡ swap_choice m.now.kernel.place (runners_of m.now.kernel) }
{
    let next = m.next_numbers().0;
    let processes = m.processes();
    if m.free_frames() >= m.core().frames() / 8 {
        match choose_in(processes, next) {
            Some(pid) => Turned::In(pid),
            None => Turned::Nothing,
        }
    } else {
        match choose_out(m, processes, next) {
            Some(pid) => Turned::Out(pid),
            None => Turned::Nothing,
        }
    }
}

// Does it.
fn carry_out<F: Files, D: SwapDev>(
    m: &mut Machine,
    files: &mut F,
    swap: &mut D,
    chosen: Turned,
) -> Result<(), Stop>
    requires asks { Asks m.old (F.holds files.old) (D.blocks swap.old) }
    requires clear { m.old.kernel.place.due ≡ [] }
    requires may { MayTurn m.old.kernel chosen }
    ensures did { OnOk result (Turns chosen m.old m.new (F.holds files.old) (stores F.Files D.SwapDev files.old swap.old)
        (stores F.Files D.SwapDev files.new swap.new)) }
    ensures keeps { OnOk result (KeepsTurn chosen m.old m.new (F.holds files.old) (stores F.Files D.SwapDev files.old swap.old)
        (stores F.Files D.SwapDev files.new swap.new)) }
    ensures stopped { IfErr result (StopsTurning chosen m.old m.new (F.holds files.old) (stores F.Files D.SwapDev files.old swap.old)
        (stores F.Files D.SwapDev files.new swap.new)) }
    ensures goes_on { GoesOn F.Files D.SwapDev result m.new files.old files.new swap.old swap.new }
{
    match chosen {
        Turned::In(pid) => swap_in(m, swap, pid),
        Turned::Out(pid) => swap_out(m, files, swap, pid),
        Turned::Nothing => Ok(()),
    }
}

/// One turn: where an eighth of the frames are free, of the processes that are out and could step the one comes in that
/// is out longest; where fewer are free, one goes out: of those that sleep in wait the one that is resident longest,
/// or else of the four with the most pages in frames.
pub fn turn<F: Files, D: SwapDev>(
    m: &mut Machine,
    files: &mut F,
    swap: &mut D,
) -> Result<Turned, Stop>
    requires asks { Asks m.old (F.holds files.old) (D.blocks swap.old) }
    requires clear { m.old.kernel.place.due ≡ [] }
    ensures chosen { IfOk result (λ t. choice_of t ≡ swap_choice m.old.kernel.place (runners_of m.old.kernel)) }
    ensures did { IfOk result (λ t. Turns t m.old m.new (F.holds files.old) (stores F.Files D.SwapDev files.old swap.old)
        (stores F.Files D.SwapDev files.new swap.new)) }
    ensures keeps { IfOk result (λ t. KeepsTurn t m.old m.new (F.holds files.old) (stores F.Files D.SwapDev files.old swap.old)
        (stores F.Files D.SwapDev files.new swap.new)) }
    ensures stopped { IfErr result (λ stop. (t : Chosen) × (choice_of t ≡ swap_choice m.old.kernel.place (runners_of m.old.kernel))
        × StopsTurning t m.old m.new (F.holds files.old) (stores F.Files D.SwapDev files.old swap.old) (stores F.Files D.SwapDev files.new swap.new) stop) }
    ensures goes_on { GoesOn F.Files D.SwapDev result m.new files.old files.new swap.old swap.new }
{
    let chosen = choose(m);
    carry_out(m, files, swap, chosen)?;
    Ok(chosen)
}
