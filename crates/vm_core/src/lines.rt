//! What a line of the schedule asks for, but to run a process. The line's own entry must stand in the journal
//! already.
ghost use Rattle.io_edge.specs.WithFiles.{stores};
ghost use Rattle.std.specs.Prelude.{◌≡◌, ◌⊎◌, ◌≤◌, ℕ, List, [], length, Option, Err, OnOk, OnErr, IfErr};
ghost use Rattle.vm_facts.specs.SwapImages.{SwapImage};
ghost use Rattle.io_edge.specs.FileHolding.{NamedFile};
ghost use Rattle.kernel_model.specs.Kernel.{note_step};
ghost use Rattle.machine_state.specs.Going.{CanGoOn};
ghost use Rattle.machine_state.specs.Calls.{IsNote};
ghost use Rattle.machine_state.specs.Outside.{IsBacked, stop_of, TransfersPages};
ghost use Rattle.proc_run.specs.Stops.{StopsBefore};
ghost use Rattle.proc_run.specs.LastMoves.{last_moves};
ghost use Rattle.proc_run.specs.Lines.{LineLeads};
ghost use Rattle.proc_run.specs.Sizes.{KeptAtStop};
ghost use Rattle.proc_run.specs.Stepped.{LeadsFrom, StopsFrom};
ghost use Rattle.proc_run.specs.Runs.{IsSteady};
ghost use Rattle.vm_core.specs.Steady.{StaysSteady};
ghost use Rattle.vm_core.specs.Lines.{LineAt};

use crate::owners::owners_of;
use io_edge::{Files, SwapDev};
use machine_state::Machine;
use proc_run::run_units::clock_hands::move_hands;
use proc_run::step_units::swapper::turn;
use vm_facts::{Entry, Event, Stop};

/// An entry is noted that changes nothing, by a machine whose last entry may count any moves of the hands.
pub fn note(m: &mut Machine, e: Entry) -> Result<(), Stop>
    requires ready { CanGoOn m.old }
    requires clear { m.old.kernel.place.due ≡ [] }
    requires frames { 64 ≤ length m.old.kernel.place.holds }
    requires note { IsNote e }
    ensures step { OnOk result (m.new.kernel ≡ note_step m.old.kernel e) }
    ensures first { OnOk result (last_moves m.new.kernel.journal ≡ 0) }
    ensures steady { OnOk result (StaysSteady m.old m.new 0) }
    ensures cause { OnErr result ((result ≡ Err Stop.JournalFull) ⊎ (result ≡ Err Stop.NoMemory)) }
    ensures stops { IfErr result (StopsBefore m.old m.new) }
    ensures kept { IfErr result (KeptAtStop m.old m.new) }
{
    m.note(e)
}

/// The oldest transfer ends, where one is in flight.
pub fn interrupt<F: Files, D: SwapDev>(
    m: &mut Machine,
    files: &mut F,
    swap: &mut D,
) -> Result<(), Stop>
    requires steady { IsSteady m.old }
    requires backed { IsBacked m.old (F.holds files.old) (D.blocks swap.old) }
    ensures made { OnOk result (LeadsFrom (LineAt m.old (F.holds files.old) (stores F.Files D.SwapDev files.old swap.old) Event.Interrupt)
        (λ A s image. LineLeads A s m.old.kernel image m.new.kernel (stores F.Files D.SwapDev files.new swap.new))) }
    ensures stops { IfErr result (StopsFrom (LineAt m.old (F.holds files.old) (stores F.Files D.SwapDev files.old swap.old) Event.Interrupt) m.old m.new
        (stores F.Files D.SwapDev files.new swap.new)) }
    ensures steady { OnOk result (StaysSteady m.old m.new 0) }
    ensures kept { IfErr result (KeptAtStop m.old m.new) }
    ensures outside { TransfersPages F.Files D.SwapDev (stop_of result) files.old files.new swap.old swap.new }
{
    m.done(files, swap)?;
    Ok(())
}

/// The hands move so many times, or until a quarter of the frames are free.
pub(crate) fn hands<F: Files, D: SwapDev>(
    m: &mut Machine,
    files: &mut F,
    swap: &mut D,
    count: u32,
) -> Result<(), Stop>
    requires steady { IsSteady m.old }
    requires backed { IsBacked m.old (F.holds files.old) (D.blocks swap.old) }
    requires few { count ≤ 1000000 }
    requires first { last_moves m.old.kernel.journal ≡ 0 }
    ensures made { OnOk result (LeadsFrom (LineAt m.old (F.holds files.old) (stores F.Files D.SwapDev files.old swap.old) (Event.Hands count))
        (λ A s image. LineLeads A s m.old.kernel image m.new.kernel (stores F.Files D.SwapDev files.new swap.new))) }
    ensures stops { IfErr result (StopsFrom (LineAt m.old (F.holds files.old) (stores F.Files D.SwapDev files.old swap.old) (Event.Hands count)) m.old m.new
        (stores F.Files D.SwapDev files.new swap.new)) }
    ensures steady { OnOk result (StaysSteady m.old m.new 0) }
    ensures kept { IfErr result (KeptAtStop m.old m.new) }
    ensures outside { TransfersPages F.Files D.SwapDev (stop_of result) files.old files.new swap.old swap.new }
{
    move_hands(m, files, swap, count)?;
    Ok(())
}

/// The swapper has a turn.
pub(crate) fn swapper<F: Files, D: SwapDev>(
    m: &mut Machine,
    files: &mut F,
    swap: &mut D,
) -> Result<(), Stop>
    requires steady { IsSteady m.old }
    requires backed { IsBacked m.old (F.holds files.old) (D.blocks swap.old) }
    ensures made { OnOk result (LeadsFrom (LineAt m.old (F.holds files.old) (stores F.Files D.SwapDev files.old swap.old) Event.Swapper)
        (λ A s image. LineLeads A s m.old.kernel image m.new.kernel (stores F.Files D.SwapDev files.new swap.new))) }
    ensures stops { IfErr result (StopsFrom (LineAt m.old (F.holds files.old) (stores F.Files D.SwapDev files.old swap.old) Event.Swapper) m.old m.new
        (stores F.Files D.SwapDev files.new swap.new)) }
    ensures steady { OnOk result (StaysSteady m.old m.new 0) }
    ensures kept { IfErr result (KeptAtStop m.old m.new) }
    ensures outside { TransfersPages F.Files D.SwapDev (stop_of result) files.old files.new swap.old swap.new }
{
    turn(m, files, swap)?;
    Ok(())
}

/// The numbers of frames and blocks are noted.
pub fn audit(m: &mut Machine) -> Result<(), Stop>
    requires steady { IsSteady m.old }
    ensures made { (holds : Option (List NamedFile)) (i : Option SwapImage)
        → OnOk result (LeadsFrom (LineAt m.old holds i Event.Audit) (λ A s image. LineLeads A s m.old.kernel image m.new.kernel i)) }
    ensures stops { (holds : Option (List NamedFile)) (i : Option SwapImage) → IfErr result (StopsFrom (LineAt m.old holds i Event.Audit) m.old m.new i) }
    ensures steady { OnOk result (StaysSteady m.old m.new 0) }
    ensures cause { OnErr result ((result ≡ Err Stop.JournalFull) ⊎ (result ≡ Err Stop.NoMemory)) }
    ensures kept { IfErr result (KeptAtStop m.old m.new) }
{
    let entry = owners_of(m);
    note(m, entry)
}
