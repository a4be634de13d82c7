//! The machine makes what a process does next, with room for one entry. More room may not be given, or it makes more.
ghost use Rattle.io_edge.specs.WithFiles.{stores};
ghost use Rattle.std.specs.Prelude.{◌≡◌, ◌+◌, ◌<◌, length, Some, None, OnOk};
ghost use Rattle.flat_state.specs.Journal.{instructions_of};
ghost use Rattle.machine_state.specs.Outside.{IsBacked};
ghost use Rattle.proc_run.specs.Stepped.{AtSome, LeadsFrom};
ghost use Rattle.proc_run.specs.Runs.{IsSteady};
ghost use Rattle.step_judge.specs.At.{ActsAt};
ghost use Rattle.step_judge.specs.Told.{ActMade, GoesOnWith};

use io_edge::{Files, SwapDev};
use machine_state::Machine;
use proc_run::{Begun, DecodeCache, Patience, finish_step, run};
use std::alloc::Global;
use vm_facts::{NoMemory, Stop};

/// A process all of whose pages are valid does what it does next, where no step is begun.
pub fn make_act<F: Files, D: SwapDev>(
    alloc: Global,
    cache: &mut DecodeCache,
    m: &mut Machine,
    files: &mut F,
    swap: &mut D,
    counted: u32,
    pid: u32,
) -> Result<(), NoMemory>
    requires steady { IsSteady m.old }
    requires bound { m.old.params.journal ≡ length m.old.kernel.journal + 1 }
    requires counted { instructions_of m.old.kernel.journal ≡ counted }
    requires few { counted < 1000000 }
    requires acts { AtSome (ActsAt m.old counted None (F.holds files.old) (stores F.Files D.SwapDev files.old swap.old) pid) }
    requires backed { IsBacked m.old (F.holds files.old) (D.blocks swap.old) }
    ensures made { OnOk result (LeadsFrom (ActsAt m.old counted None (F.holds files.old) (stores F.Files D.SwapDev files.old swap.old) pid)
        (ActMade m.old.kernel m.new.kernel (stores F.Files D.SwapDev files.new swap.new) pid)) }
    ensures on { OnOk result (GoesOnWith m.old m.new) }
    ensures holds { F.holds files.new ≡ F.holds files.old }
    ensures blocks { D.blocks swap.new ≡ D.blocks swap.old }
{
    let went = run(
        alloc,
        cache,
        m,
        files,
        swap,
        pid,
        counted,
        counted + 1,
        Patience::Stops,
    );
    m.always();
    match went {
        Ok(_) => Ok(()),
        Err(stop) => match stop {
            Stop::JournalFull => Ok(()),
            _ => Err(NoMemory),
        },
    }
}

/// A process whose step is begun so does what is left of it.
pub fn make_rest<F: Files, D: SwapDev>(
    m: &mut Machine,
    files: &mut F,
    swap: &mut D,
    _counted: u32,
    begun: Begun,
    _pid: u32,
) -> Result<(), NoMemory>
    requires steady { IsSteady m.old }
    requires bound { m.old.params.journal ≡ length m.old.kernel.journal + 1 }
    requires acts { AtSome (ActsAt m.old _counted (Some begun) (F.holds files.old) (stores F.Files D.SwapDev files.old swap.old) _pid) }
    requires backed { IsBacked m.old (F.holds files.old) (D.blocks swap.old) }
    ensures made { OnOk result (LeadsFrom (ActsAt m.old _counted (Some begun) (F.holds files.old) (stores F.Files D.SwapDev files.old swap.old) _pid)
        (ActMade m.old.kernel m.new.kernel (stores F.Files D.SwapDev files.new swap.new) _pid)) }
    ensures on { OnOk result (GoesOnWith m.old m.new) }
    ensures holds { F.holds files.new ≡ F.holds files.old }
    ensures blocks { D.blocks swap.new ≡ D.blocks swap.old }
{
    let went = finish_step(m, files, swap, begun);
    m.always();
    match went {
        Ok(()) => Ok(()),
        Err(stop) => match stop {
            Stop::JournalFull => Ok(()),
            _ => Err(NoMemory),
        },
    }
}
