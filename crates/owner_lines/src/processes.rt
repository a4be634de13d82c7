//! The lines of the processes, each with its registers below it.
#![tactic(auto, using(run_text::proofs::Putting::text_none))]

ghost use Rattle.std.specs.Prelude.{[], ◌∷◌, ◌++◌};
ghost use Rattle.std.specs.List.{flat_map};
ghost use Rattle.proc_table.specs.Records.{find};
ghost use Rattle.machine_state.specs.Going.{IsRunning};
ghost use Rattle.machine_state.specs.Machine.{life_shown};
ghost use Rattle.run_text.specs.Text.{parts};
ghost use Rattle.run_text.specs.Writing.{PutsText};
ghost use Rattle.owner_lines.specs.Owners.{in_or_out, holder_text, life_text, codes_text, registers_line, registers_in, registers_text, process_lines};
ghost use Rattle.owner_lines.specs.Recorded.{record_line, record_lines, record_if};

use crate::words::put_if;
use io_edge::{Failed, Sink};
use machine_state::Machine;
use proc_table::{Life, Proc, ProcTable};
use run_text::{Writer, put_named};
use vm_facts::Regs;

// Puts the space that a process holds, after the word that says whether the process is out.
fn put_space<S: Sink>(out: &mut Writer<'_, S>, is_out: bool, sid: u32) -> Result<(), Failed>
    ensures { PutsText S.Sink result (in_or_out is_out ++ parts (sid ∷ [])) out.old out.new }
{
    if is_out {
        put_named(out, b" out", &[sid])
    } else {
        put_named(out, b" in", &[sid])
    }
}

// Puts the space that a process holds, whether the process is out, and whether it is asleep.
fn put_holder<S: Sink>(
    out: &mut Writer<'_, S>,
    is_out: bool,
    sid: u32,
    asleep: bool,
) -> Result<(), Failed>
    ensures { PutsText S.Sink result (holder_text is_out sid asleep) out.old out.new }
{
    put_space(out, is_out, sid)?;
    put_if(out, asleep, b" asleep")
}

// Puts what a process has.
fn put_life<S: Sink>(out: &mut Writer<'_, S>, process: &Proc) -> Result<(), Failed>
    ensures { PutsText S.Sink result (life_text process.now.out process.now.asleep (life_shown process.now.state)) out.old out.new }
{
    match process.state {
        Life::New => Ok(()),
        Life::Holds(sid) => put_holder(out, process.out, sid, process.asleep),
        Life::Lends { sid, child } => put_named(out, b" lent", &[sid, child]),
        Life::Zombie(status) => put_named(out, b" ended", &[status]),
    }
}

// Puts the line of a process.
fn put_process<S: Sink>(out: &mut Writer<'_, S>, process: &Proc) -> Result<(), Failed>
    ensures { PutsText S.Sink result (record_line process.now) out.old out.new }
{
    put_named(out, b"process", &[process.pid])?;
    put_life(out, process)?;
    out.put(b"\n")
}

// Puts the letters of the condition codes that are set.
fn put_codes<S: Sink>(out: &mut Writer<'_, S>, regs: &Regs) -> Result<(), Failed>
    ensures { PutsText S.Sink result (codes_text regs.now) out.old out.new }
{
    put_if(out, regs.n, b" N")?;
    put_if(out, regs.z, b" Z")?;
    put_if(out, regs.v, b" V")?;
    put_if(out, regs.c, b" C")
}

// Puts the line of a process's registers.
fn put_regs<S: Sink>(out: &mut Writer<'_, S>, pid: u32, regs: &Regs) -> Result<(), Failed>
    ensures { PutsText S.Sink result (registers_line pid regs.now) out.old out.new }
{
    put_named(out, b"registers", &[pid])?;
    put_named(out, b"", &regs.r)?;
    put_codes(out, regs)?;
    out.put(b"\n")
}

// Puts the line of the registers of a process, unless it is out.
fn put_regs_in<S: Sink>(
    out: &mut Writer<'_, S>,
    is_out: bool,
    pid: u32,
    regs: &Regs,
) -> Result<(), Failed>
    ensures { PutsText S.Sink result (registers_in is_out pid regs.now) out.old out.new }
{
    if is_out {
        Ok(())
    } else {
        put_regs(out, pid, regs)
    }
}

// Puts the line of a process's registers, where its record has them.
fn put_registers<S: Sink>(out: &mut Writer<'_, S>, process: &Proc) -> Result<(), Failed>
    ensures { PutsText S.Sink result (registers_text process.now.out process.now.pid process.now.regs (life_shown process.now.state)) out.old out.new }
{
    match process.state {
        Life::Holds(_) | Life::Lends { .. } => {
            put_regs_in(out, process.out, process.pid, &process.regs)
        }
        Life::New | Life::Zombie(_) => Ok(()),
    }
}

// Puts the lines of a process.
fn put_all_of<S: Sink>(out: &mut Writer<'_, S>, process: &Proc) -> Result<(), Failed>
    ensures { PutsText S.Sink result (record_lines process.now) out.old out.new }
{
    put_process(out, process)?;
    put_registers(out, process)
}

// Puts the lines of the process with this number, where there is one.
fn put_process_at<S: Sink>(
    out: &mut Writer<'_, S>,
    processes: &ProcTable,
    pid: u32,
) -> Result<(), Failed>
    ensures { PutsText S.Sink result (record_if (find pid processes.now)) out.old out.new }
{
    match processes.get(pid) {
        Some(process) => put_all_of(out, process),
        None => Ok(()),
    }
}

/// Puts the lines of the processes, by rising number, each with its registers below it.
pub(crate) fn put_processes<S: Sink>(
    out: &mut Writer<'_, S>,
    machine: &Machine,
) -> Result<(), Failed>
    requires { IsRunning machine.now }
    ensures { PutsText S.Sink result (flat_map (process_lines machine.now.kernel.place) machine.now.kernel.processes) out.old out.new }
{
    let processes = machine.processes();
    let mut pid = 0;
    while let Some(next) = processes.next_after(pid) {
        put_process_at(out, processes, next)?;
        pid = next;
    }
    Ok(())
}
