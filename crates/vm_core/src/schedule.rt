//! A whole run by one call: start, lines, closing phase, in this order. After a stop nothing more may be done.
ghost use Rattle.io_edge.specs.WithFiles.{stores};
ghost use Rattle.std.specs.Prelude.{◌≡◌, ◌<◌, ◌≤◌, ◌^◌, ℕ, false, List, [], length, Some, Err, All, IfOk, IfErr, OnOk};
ghost use Rattle.vm_facts.specs.SwapImages.{SwapImage};
ghost use Rattle.flat_state.specs.Flat.{Inputs};
ghost use Rattle.flat_model.specs.Asked.{start_held};
ghost use Rattle.machine_state.specs.Files.{AreFiles};
ghost use Rattle.machine_state.specs.Going.{IsRunning};
ghost use Rattle.machine_state.specs.Outside.{IsBacked, stop_of, TransfersPages};
ghost use Rattle.proc_run.specs.Sizes.{KeptAtStop};
ghost use Rattle.vm_core.specs.FirstProcesses.{StartsFrom};
ghost use Rattle.proc_run.specs.Stepped.{LeadsFrom, StopsFrom};
ghost use Rattle.vm_core.specs.Cores.{StandsUnderway};
ghost use Rattle.vm_core.specs.Starting.{IsFresh};
ghost use Rattle.vm_core.specs.Schedules.{HaveFewMoves, IsBeforeLines, LinesWent, LinesFinished};
ghost use Rattle.vm_facts.specs.declared.stop.Stop.{Stop as Halt};
ghost use Rattle.vm_core.specs.Full.{RunFull, RunOver, RunStopsAt};
ghost use Rattle.vm_core.specs.RunEnds.{stopped_as, IsAskedOf, RunEnds};
ghost use Rattle.vm_core.specs.declared.schedule.Unfinished.TheVariants.{Stopped};

use crate::Started;
use crate::events::Went;
use crate::run::Core;
use io_edge::{Files, SwapDev};
use vm_facts::{Event, Stop};

/// Why a run isn't finished.
#[derive(Clone, Copy, Debug, PartialEq, Eq, Drop)]
pub enum Unfinished {
    /// The swap pieces of this first process find no place.
    NoSpace(u32),
    /// The run stopped.
    Stopped(Stop),
}

impl From<Stop> for Unfinished {
    ghost from_gives = { λ stop e. e ≡ Stopped stop };

    fn from(stop: Stop) -> Unfinished {
        Unfinished::Stopped(stop)
    }
}

// Takes the lines of a schedule, the first one first, until as many instructions are counted as may.
fn take_lines<F: Files, D: SwapDev>(
    core: &mut Core,
    files: &mut F,
    swap: &mut D,
    lines: &[Event],
) -> Result<Went, Stop>
    requires goes_on { StandsUnderway core.old }
    requires below { core.old.counted < core.old.machine.params.limit }
    requires backed { IsBacked core.old.machine (F.holds files.old) (D.blocks swap.old) }
    requires few { HaveFewMoves lines.now }
    requires count { length lines.now < 2 ^ 32 }
    ensures takes { IfOk result (λ went. LeadsFrom (IsBeforeLines core.old lines.now (F.holds files.old) (stores F.Files D.SwapDev files.old swap.old))
        (LinesWent core.old core.new went (length lines.now) (F.holds files.old) (stores F.Files D.SwapDev files.new swap.new))) }
    ensures stops { IfErr result
        (StopsFrom (IsBeforeLines core.old lines.now (F.holds files.old) (stores F.Files D.SwapDev files.old swap.old)) core.old.machine core.new.machine
        (stores F.Files D.SwapDev files.new swap.new)) }
    ensures goes_on { OnOk result (StandsUnderway core.new) }
    ensures params { OnOk result (core.new.machine.params ≡ core.old.machine.params) }
    ensures images { OnOk result (core.new.machine.images ≡ core.old.machine.images) }
    ensures kept { IfErr result (KeptAtStop core.old.machine core.new.machine) }
    ensures outside { TransfersPages F.Files D.SwapDev (stop_of result) files.old files.new swap.old swap.new }
{
    let mut line = 0;
    for e in lines {
        line += 1;
        match core.event(files, swap, line, *e)? {
            Went::Next => {}
            Went::LimitReached => return Ok(Went::LimitReached),
        }
    }
    Ok(Went::Next)
}

// Takes the lines of a schedule and closes the run.
fn finish<F: Files, D: SwapDev>(
    core: &mut Core,
    files: &mut F,
    swap: &mut D,
    lines: &[Event],
) -> Result<(), Stop>
    requires goes_on { StandsUnderway core.old }
    requires below { core.old.counted < core.old.machine.params.limit }
    requires backed { IsBacked core.old.machine (F.holds files.old) (D.blocks swap.old) }
    requires few { HaveFewMoves lines.now }
    requires count { length lines.now < 2 ^ 32 }
    ensures goes_on { OnOk result (StandsUnderway core.new) }
    ensures params { OnOk result (core.new.machine.params ≡ core.old.machine.params) }
    ensures images { OnOk result (core.new.machine.images ≡ core.old.machine.images) }
    ensures kept { IfErr result (KeptAtStop core.old.machine core.new.machine) }
    ensures finishes { OnOk result
        (LeadsFrom (IsBeforeLines core.old lines.now (F.holds files.old) (stores F.Files D.SwapDev files.old swap.old))
        (LinesFinished core.old core.new (stores F.Files D.SwapDev files.new swap.new))) }
    ensures stops { IfErr result
        (StopsFrom (IsBeforeLines core.old lines.now (F.holds files.old) (stores F.Files D.SwapDev files.old swap.old)) core.old.machine core.new.machine
        (stores F.Files D.SwapDev files.new swap.new)) }
    ensures outside { TransfersPages F.Files D.SwapDev (stop_of result) files.old files.new swap.old swap.new }
{
    match take_lines(core, files, swap, lines)? {
        Went::LimitReached => Ok(()),
        Went::Next => core.close_run(files, swap),
    }
}

// Runs a schedule from the start of its first processes to its end.
fn run_through<F: Files, D: SwapDev>(
    core: &mut Core,
    files: &mut F,
    swap: &mut D,
    first: &[u32],
    lines: &[Event],
) -> Result<(), Unfinished>
    requires fresh { IsFresh core.old }
    requires some { 0 < core.old.machine.params.limit }
    requires frames { 64 ≤ core.old.machine.params.frames }
    requires few { length first.now ≤ 16 }
    requires numbers { All (λ n. (1 ≤ n) × (n ≤ length core.old.machine.images)) first.now }
    requires moves { HaveFewMoves lines.now }
    requires count { length lines.now < 2 ^ 32 }
    requires backed { IsBacked core.old.machine (F.holds files.old) (D.blocks swap.old) }
    ensures ends { (A : Inputs) (image : SwapImage) → IsAskedOf A core.old.machine first.now lines.now (F.holds files.old) image → stores F.Files D.SwapDev
        files.old swap.old ≡ Some image
        → RunEnds A core.new.machine.kernel.journal image result (stores F.Files D.SwapDev files.new swap.new) }
    ensures full { (A : Inputs) (image : SwapImage) → IsAskedOf A core.old.machine first.now lines.now (F.holds files.old) image → stores F.Files D.SwapDev
        files.old swap.old ≡ Some image
        → result ≡ Err (Unfinished.Stopped Stop.JournalFull) → RunFull A core.new.machine image }
    ensures left { (A : Inputs) (image : SwapImage) → IsAskedOf A core.old.machine first.now lines.now (F.holds files.old) image → stores F.Files D.SwapDev
        files.old swap.old ≡ Some image
        → (stop : Halt) → result ≡ Err (Unfinished.Stopped stop) → RunStopsAt A stop core.new.machine image }
    ensures over { OnOk result
        ((A : Inputs) (image : SwapImage) → IsAskedOf A core.old.machine first.now lines.now (F.holds files.old) image → stores F.Files D.SwapDev files.old
        swap.old ≡ Some image
        → RunOver A core.new.machine image) }
    ensures goes_on { OnOk result (StandsUnderway core.new) }
    ensures running { OnOk result (IsRunning core.new.machine) }
    ensures unmade_running { (pid : ℕ) → result ≡ Err (Unfinished.NoSpace pid) → IsRunning core.new.machine }
    ensures params { core.new.machine.params ≡ core.old.machine.params }
    ensures images { core.new.machine.images ≡ core.old.machine.images }
    ensures no_space { (A : Inputs) → StartsFrom A core.old.machine first.now → (pid : ℕ) → result ≡ Err (Unfinished.NoSpace pid) → start_held A ≡ Err pid }
    ensures bound { result ≡ Err (Unfinished.Stopped Stop.JournalFull) → core.old.machine.params.journal ≤ length core.new.machine.kernel.journal }
    ensures none_made { (pid : ℕ) → result ≡ Err (Unfinished.NoSpace pid) → core.new.machine.kernel.journal ≡ [] }
    ensures untouched { (pid : ℕ) → result ≡ Err (Unfinished.NoSpace pid) → swap.new ≡ swap.old }
    ensures outside { TransfersPages F.Files D.SwapDev (stop_of (stopped_as result)) files.old files.new swap.old swap.new }
{
    match core.start(files, swap, first)? {
        Started::NoSpace(pid) => { Err(Unfinished::NoSpace(pid)) }
        Started::Ok => {
            finish(core, files, swap, lines)?;
            Ok(())
        }
    }
}

/// Runs a schedule over a core that was made and had no call yet: the first processes start in images of these numbers,
/// the lines are taken in order, and then processes have turns, until as many instructions are counted as may or, after
/// the last line, none can step. The limit is at least 1.
pub fn run_schedule<F: Files, D: SwapDev>(
    core: &mut Core,
    files: &mut F,
    swap: &mut D,
    first: &[u32],
    lines: &[Event],
) -> Result<(), Unfinished>
    requires fresh { IsFresh core.old }
    requires some { 0 < core.old.machine.params.limit }
    requires frames { 64 ≤ core.old.machine.params.frames }
    requires few { length first.now ≤ 16 }
    requires numbers { All (λ n. (1 ≤ n) × (n ≤ length core.old.machine.images)) first.now }
    requires moves { HaveFewMoves lines.now }
    requires count { length lines.now < 2 ^ 32 }
    requires area { core.old.machine.params.swap_blocks ≤ D.blocks swap.old }
    requires files { AreFiles core.old.machine.images (F.holds files.old) }
    ensures ends { (A : Inputs) (image : SwapImage) → IsAskedOf A core.old.machine first.now lines.now (F.holds files.old) image → stores F.Files D.SwapDev
        files.old swap.old ≡ Some image
        → RunEnds A core.new.machine.kernel.journal image result (stores F.Files D.SwapDev files.new swap.new) }
    ensures full { (A : Inputs) (image : SwapImage) → IsAskedOf A core.old.machine first.now lines.now (F.holds files.old) image → stores F.Files D.SwapDev
        files.old swap.old ≡ Some image
        → result ≡ Err (Unfinished.Stopped Stop.JournalFull) → RunFull A core.new.machine image }
    ensures left { (A : Inputs) (image : SwapImage) → IsAskedOf A core.old.machine first.now lines.now (F.holds files.old) image → stores F.Files D.SwapDev
        files.old swap.old ≡ Some image
        → (stop : Halt) → result ≡ Err (Unfinished.Stopped stop) → RunStopsAt A stop core.new.machine image }
    ensures over { OnOk result
        ((A : Inputs) (image : SwapImage) → IsAskedOf A core.old.machine first.now lines.now (F.holds files.old) image → stores F.Files D.SwapDev files.old
        swap.old ≡ Some image
        → RunOver A core.new.machine image) }
    ensures goes_on { OnOk result (StandsUnderway core.new) }
    ensures running { OnOk result (IsRunning core.new.machine) }
    ensures unmade_running { (pid : ℕ) → result ≡ Err (Unfinished.NoSpace pid) → IsRunning core.new.machine }
    ensures left_running { core.new.machine.kernel.stopped ≡ false → IsRunning core.new.machine }
    ensures params { core.new.machine.params ≡ core.old.machine.params }
    ensures images { core.new.machine.images ≡ core.old.machine.images }
    ensures no_space { (A : Inputs) → StartsFrom A core.old.machine first.now → (pid : ℕ) → result ≡ Err (Unfinished.NoSpace pid) → start_held A ≡ Err pid }
    ensures within { length core.new.machine.kernel.journal ≤ core.old.machine.params.journal }
    ensures bound { result ≡ Err (Unfinished.Stopped Stop.JournalFull) → core.old.machine.params.journal ≤ length core.new.machine.kernel.journal }
    ensures none_made { (pid : ℕ) → result ≡ Err (Unfinished.NoSpace pid) → core.new.machine.kernel.journal ≡ [] }
    ensures untouched { (pid : ℕ) → result ≡ Err (Unfinished.NoSpace pid) → swap.new ≡ swap.old }
    ensures outside { TransfersPages F.Files D.SwapDev (stop_of (stopped_as result)) files.old files.new swap.old swap.new }
{
    let ended = run_through(core, files, swap, first, lines);
    core.machine().always();
    ended
}
