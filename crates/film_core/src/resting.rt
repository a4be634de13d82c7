//! Does what is left of the last mark, some of whose units may be made. The machine is asked how far it came, because
//! no unit may be made twice.
ghost use Rattle.io_edge.specs.WithFiles.{stores};
ghost use Rattle.std.specs.Prelude.{◌≡◌, false, IfOk, IfErr};
ghost use Rattle.flat_state.specs.Journal.{instructions_of};
ghost use Rattle.kernel_model.specs.Unit.{proc_of};
ghost use Rattle.machine_state.specs.Going.{IsRunning};
ghost use Rattle.machine_state.specs.Outside.{IsBacked, stop_of, TransfersPages};
ghost use Rattle.vm_core.specs.Sizes.{KeptAtStop};
ghost use Rattle.vm_core.specs.Stepped.{AtSome, LeadsFrom, StopsFrom};
ghost use Rattle.vm_core.specs.Choosing.{steps_by};
ghost use Rattle.vm_core.specs.Runs.{IsSteady};
ghost use Rattle.film_core.specs.Ways.{StaysOn, RestAt, RestDone};

use io_edge::{Files, SwapDev};
use machine_state::Machine;
use run_model::Mark;
use std::alloc::Global;
use vm_core::proc_run::{DecodeCache, Patience, can_step, run};
use vm_core::run_units::clock_hands::move_hands;
use vm_core::swapper::{swap_in, swap_out};
use vm_core::{TURN, audit, come_in, count_behind, finish, interrupt};
use vm_facts::Stop;

// Whether a process holds a space and doesn't sleep.
fn may_step(m: &Machine, pid: u32) -> bool
    requires { IsRunning m.now }
    ensures { result ≡ steps_by (proc_of m.now.kernel pid) }
{
    match m.processes().get(pid) {
        Some(process) => can_step(process),
        None => false,
    }
}

// A process that is in runs on, and waits for no page.
fn dispatch<F: Files, D: SwapDev>(
    alloc: Global,
    cache: &mut DecodeCache,
    m: &mut Machine,
    files: &mut F,
    swap: &mut D,
    counted: u32,
    pid: u32,
    more: u32,
    since: u32,
) -> Result<u32, Stop>
    requires steady { IsSteady m.old }
    requires counted { instructions_of m.old.kernel.journal ≡ counted }
    requires under { AtSome (RestAt m.old (Mark.Dispatch pid more since) counted (F.holds files.old) (stores F.Files D.SwapDev files.old swap.old)) }
    requires backed { IsBacked m.old (F.holds files.old) (D.blocks swap.old) }
    ensures rests { IfOk result
        (λ count. LeadsFrom (RestAt m.old (Mark.Dispatch pid more since) counted (F.holds files.old) (stores F.Files D.SwapDev files.old swap.old))
        (RestDone m.old m.new (Mark.Dispatch pid more since) count (stores F.Files D.SwapDev files.new swap.new))) }
    ensures stops { IfErr result
        (StopsFrom (RestAt m.old (Mark.Dispatch pid more since) counted (F.holds files.old) (stores F.Files D.SwapDev files.old swap.old)) m.old m.new
        (stores F.Files D.SwapDev files.new swap.new)) }
    ensures on { IfOk result (λ count. StaysOn m.old m.new count) }
    ensures kept { IfErr result (KeptAtStop m.old m.new) }
    ensures outside { TransfersPages F.Files D.SwapDev (stop_of result) files.old files.new swap.old swap.new }
{
    let until = count_behind(m, since, more);
    run(
        alloc,
        cache,
        m,
        files,
        swap,
        pid,
        counted,
        until,
        Patience::Stops,
    )
}

// A process has what is left of its turn.
fn turn<F: Files, D: SwapDev>(
    alloc: Global,
    cache: &mut DecodeCache,
    m: &mut Machine,
    files: &mut F,
    swap: &mut D,
    counted: u32,
    pid: u32,
    since: u32,
) -> Result<u32, Stop>
    requires steady { IsSteady m.old }
    requires counted { instructions_of m.old.kernel.journal ≡ counted }
    requires under { AtSome (RestAt m.old (Mark.Turn pid since) counted (F.holds files.old) (stores F.Files D.SwapDev files.old swap.old)) }
    requires backed { IsBacked m.old (F.holds files.old) (D.blocks swap.old) }
    ensures rests { IfOk result (λ count. LeadsFrom (RestAt m.old (Mark.Turn pid since) counted (F.holds files.old)
        (stores F.Files D.SwapDev files.old swap.old))
        (RestDone m.old m.new (Mark.Turn pid since) count (stores F.Files D.SwapDev files.new swap.new))) }
    ensures stops { IfErr result
        (StopsFrom (RestAt m.old (Mark.Turn pid since) counted (F.holds files.old) (stores F.Files D.SwapDev files.old swap.old)) m.old m.new
        (stores F.Files D.SwapDev files.new swap.new)) }
    ensures on { IfOk result (λ count. StaysOn m.old m.new count) }
    ensures kept { IfErr result (KeptAtStop m.old m.new) }
    ensures outside { TransfersPages F.Files D.SwapDev (stop_of result) files.old files.new swap.old swap.new }
{
    if counted >= count_behind(m, since, TURN) || !may_step(m, pid) {
        return Ok(counted);
    }
    come_in(m, files, swap, pid)?;
    finish(alloc, cache, m, files, swap, pid, counted, since)
}

// The oldest transfer ends.
fn wait<F: Files, D: SwapDev>(
    m: &mut Machine,
    files: &mut F,
    swap: &mut D,
    counted: u32,
) -> Result<u32, Stop>
    requires steady { IsSteady m.old }
    requires counted { instructions_of m.old.kernel.journal ≡ counted }
    requires under { AtSome (RestAt m.old Mark.Interrupt counted (F.holds files.old) (stores F.Files D.SwapDev files.old swap.old)) }
    requires backed { IsBacked m.old (F.holds files.old) (D.blocks swap.old) }
    ensures rests { IfOk result (λ count. LeadsFrom (RestAt m.old Mark.Interrupt counted (F.holds files.old) (stores F.Files D.SwapDev files.old swap.old))
        (RestDone m.old m.new Mark.Interrupt count (stores F.Files D.SwapDev files.new swap.new))) }
    ensures stops { IfErr result (StopsFrom (RestAt m.old Mark.Interrupt counted (F.holds files.old) (stores F.Files D.SwapDev files.old swap.old)) m.old
        m.new (stores F.Files D.SwapDev files.new swap.new)) }
    ensures on { IfOk result (λ count. StaysOn m.old m.new count) }
    ensures kept { IfErr result (KeptAtStop m.old m.new) }
    ensures outside { TransfersPages F.Files D.SwapDev (stop_of result) files.old files.new swap.old swap.new }
{
    interrupt(m, files, swap)?;
    Ok(counted)
}

// The hands make the moves that are left.
fn hands<F: Files, D: SwapDev>(
    m: &mut Machine,
    files: &mut F,
    swap: &mut D,
    counted: u32,
    left: u32,
) -> Result<u32, Stop>
    requires steady { IsSteady m.old }
    requires counted { instructions_of m.old.kernel.journal ≡ counted }
    requires under { AtSome (RestAt m.old (Mark.Hands left) counted (F.holds files.old) (stores F.Files D.SwapDev files.old swap.old)) }
    requires backed { IsBacked m.old (F.holds files.old) (D.blocks swap.old) }
    ensures rests { IfOk result (λ count. LeadsFrom (RestAt m.old (Mark.Hands left) counted (F.holds files.old) (stores F.Files D.SwapDev files.old swap.old))
        (RestDone m.old m.new (Mark.Hands left) count (stores F.Files D.SwapDev files.new swap.new))) }
    ensures stops { IfErr result (StopsFrom (RestAt m.old (Mark.Hands left) counted (F.holds files.old) (stores F.Files D.SwapDev files.old swap.old)) m.old
        m.new (stores F.Files D.SwapDev files.new swap.new)) }
    ensures on { IfOk result (λ count. StaysOn m.old m.new count) }
    ensures kept { IfErr result (KeptAtStop m.old m.new) }
    ensures outside { TransfersPages F.Files D.SwapDev (stop_of result) files.old files.new swap.old swap.new }
{
    move_hands(m, files, swap, left)?;
    Ok(counted)
}

// A process comes in.
fn bring_in<F: Files, D: SwapDev>(
    m: &mut Machine,
    files: &mut F,
    swap: &mut D,
    counted: u32,
    pid: u32,
) -> Result<u32, Stop>
    requires steady { IsSteady m.old }
    requires counted { instructions_of m.old.kernel.journal ≡ counted }
    requires under { AtSome (RestAt m.old (Mark.BringIn pid) counted (F.holds files.old) (stores F.Files D.SwapDev files.old swap.old)) }
    requires backed { IsBacked m.old (F.holds files.old) (D.blocks swap.old) }
    ensures rests { IfOk result (λ count. LeadsFrom (RestAt m.old (Mark.BringIn pid) counted (F.holds files.old) (stores F.Files D.SwapDev files.old swap.old))
        (RestDone m.old m.new (Mark.BringIn pid) count (stores F.Files D.SwapDev files.new swap.new))) }
    ensures stops { IfErr result (StopsFrom (RestAt m.old (Mark.BringIn pid) counted (F.holds files.old) (stores F.Files D.SwapDev files.old swap.old)) m.old
        m.new (stores F.Files D.SwapDev files.new swap.new)) }
    ensures on { IfOk result (λ count. StaysOn m.old m.new count) }
    ensures kept { IfErr result (KeptAtStop m.old m.new) }
    ensures outside { TransfersPages F.Files D.SwapDev (stop_of result) files.old files.new swap.old swap.new }
{
    swap_in(m, swap, pid)?;
    Ok(counted)
}

// A process goes out, as far as it isn't.
fn put_out<F: Files, D: SwapDev>(
    m: &mut Machine,
    files: &mut F,
    swap: &mut D,
    counted: u32,
    pid: u32,
) -> Result<u32, Stop>
    requires steady { IsSteady m.old }
    requires counted { instructions_of m.old.kernel.journal ≡ counted }
    requires under { AtSome (RestAt m.old (Mark.PutOut pid) counted (F.holds files.old) (stores F.Files D.SwapDev files.old swap.old)) }
    requires backed { IsBacked m.old (F.holds files.old) (D.blocks swap.old) }
    ensures rests { IfOk result (λ count. LeadsFrom (RestAt m.old (Mark.PutOut pid) counted (F.holds files.old) (stores F.Files D.SwapDev files.old swap.old))
        (RestDone m.old m.new (Mark.PutOut pid) count (stores F.Files D.SwapDev files.new swap.new))) }
    ensures stops { IfErr result (StopsFrom (RestAt m.old (Mark.PutOut pid) counted (F.holds files.old) (stores F.Files D.SwapDev files.old swap.old)) m.old
        m.new (stores F.Files D.SwapDev files.new swap.new)) }
    ensures on { IfOk result (λ count. StaysOn m.old m.new count) }
    ensures kept { IfErr result (KeptAtStop m.old m.new) }
    ensures outside { TransfersPages F.Files D.SwapDev (stop_of result) files.old files.new swap.old swap.new }
{
    swap_out(m, files, swap, pid)?;
    Ok(counted)
}

// The numbers of frames and blocks are noted.
fn note_owners<F: Files, D: SwapDev>(
    m: &mut Machine,
    files: &mut F,
    swap: &mut D,
    counted: u32,
) -> Result<u32, Stop>
    requires steady { IsSteady m.old }
    requires counted { instructions_of m.old.kernel.journal ≡ counted }
    requires under { AtSome (RestAt m.old Mark.Audit counted (F.holds files.old) (stores F.Files D.SwapDev files.old swap.old)) }
    requires backed { IsBacked m.old (F.holds files.old) (D.blocks swap.old) }
    ensures rests { IfOk result (λ count. LeadsFrom (RestAt m.old Mark.Audit counted (F.holds files.old) (stores F.Files D.SwapDev files.old swap.old))
        (RestDone m.old m.new Mark.Audit count (stores F.Files D.SwapDev files.new swap.new))) }
    ensures stops { IfErr result (StopsFrom (RestAt m.old Mark.Audit counted (F.holds files.old) (stores F.Files D.SwapDev files.old swap.old)) m.old m.new
        (stores F.Files D.SwapDev files.new swap.new)) }
    ensures on { IfOk result (λ count. StaysOn m.old m.new count) }
    ensures kept { IfErr result (KeptAtStop m.old m.new) }
    ensures outside { TransfersPages F.Files D.SwapDev (stop_of result) files.old files.new swap.old swap.new }
{
    audit(m)?;
    Ok(counted)
}

/// What is still to come of a mark. The answer is how many instructions are counted then.
pub(crate) fn rest<F: Files, D: SwapDev>(
    alloc: Global,
    cache: &mut DecodeCache,
    m: &mut Machine,
    files: &mut F,
    swap: &mut D,
    counted: u32,
    mark: Mark,
) -> Result<u32, Stop>
    requires steady { IsSteady m.old }
    requires counted { instructions_of m.old.kernel.journal ≡ counted }
    requires under { AtSome (RestAt m.old mark counted (F.holds files.old) (stores F.Files D.SwapDev files.old swap.old)) }
    requires backed { IsBacked m.old (F.holds files.old) (D.blocks swap.old) }
    ensures rests { IfOk result
        (λ count. LeadsFrom (RestAt m.old mark counted (F.holds files.old) (stores F.Files D.SwapDev files.old swap.old))
        (RestDone m.old m.new mark count (stores F.Files D.SwapDev files.new swap.new))) }
    ensures stops { IfErr result (StopsFrom (RestAt m.old mark counted (F.holds files.old) (stores F.Files D.SwapDev files.old swap.old)) m.old m.new
        (stores F.Files D.SwapDev files.new swap.new)) }
    ensures on { IfOk result (λ count. StaysOn m.old m.new count) }
    ensures kept { IfErr result (KeptAtStop m.old m.new) }
    ensures outside { TransfersPages F.Files D.SwapDev (stop_of result) files.old files.new swap.old swap.new }
{
    match mark {
        Mark::Over => Ok(counted),
        Mark::Dispatch { pid, count, since } => {
            dispatch(alloc, cache, m, files, swap, counted, pid, count, since)
        }
        Mark::Interrupt => wait(m, files, swap, counted),
        Mark::Hands { count } => hands(m, files, swap, counted, count),
        Mark::BringIn { pid } => bring_in(m, files, swap, counted, pid),
        Mark::PutOut { pid } => put_out(m, files, swap, counted, pid),
        Mark::Audit => note_owners(m, files, swap, counted),
        Mark::Turn { pid, since } => { turn(alloc, cache, m, files, swap, counted, pid, since) },
    }
}
