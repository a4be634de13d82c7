//! All lines of who owns what, part after part, from the journal's length to the swap area.
ghost use Rattle.std.specs.Prelude.{length};
ghost use Rattle.io_edge.specs.Calls.{PutsBytes};
ghost use Rattle.machine_state.specs.Going.{IsRunning};
ghost use Rattle.run_text.specs.Writing.{PutsText, WritesText};
ghost use Rattle.owner_lines.specs.Owners.{entries_line, hands_line, swap_lines, owners_lines};

use crate::due::put_due;
use crate::frames::put_frames;
use crate::processes::put_processes;
use crate::swap::put_blocks;
use crate::transfers::put_transfers;
use crate::words::put_if;
use io_edge::{Failed, Moved, Sink};
use machine_state::Machine;
use run_text::{Writer, put_named};

// Puts the line of the journal's length, which says where the run is over.
fn put_entries<S: Sink>(out: &mut Writer<'_, S>, entries: u32, over: bool) -> Result<(), Failed>
    ensures { PutsText S.Sink result (entries_line entries over) out.old out.new }
{
    put_named(out, b"entries", &[entries])?;
    put_if(out, over, b" end")?;
    out.put(b"\n")
}

// Puts the line of the two hands.
fn put_hands<S: Sink>(out: &mut Writer<'_, S>, machine: &Machine) -> Result<(), Failed>
    ensures { PutsText S.Sink result (hands_line machine.now.kernel.place) out.old out.new }
{
    let (front, back) = machine.hands();
    put_named(out, b"hands", &[front, back])?;
    out.put(b"\n")
}

// Puts the lines of the swap area.
fn put_swap<S: Sink>(out: &mut Writer<'_, S>, machine: &Machine) -> Result<(), Failed>
    requires { IsRunning machine.now }
    ensures { PutsText S.Sink result (swap_lines machine.now.params.swap_blocks machine.now.before) out.old out.new }
{
    put_blocks(out, machine.holdings_before(), machine.params().swap_blocks)
}

// Puts the line of a machine's journal.
fn put_head<S: Sink>(out: &mut Writer<'_, S>, machine: &Machine, over: bool) -> Result<(), Failed>
    requires { IsRunning machine.now }
    ensures { PutsText S.Sink result (entries_line (length machine.now.kernel.journal) over) out.old out.new }
{
    let _limit = machine.params().journal;
    put_entries(out, machine.journal().len() as u32, over)
}

// Puts all lines.
fn put_lines<S: Sink>(out: &mut Writer<'_, S>, machine: &Machine, over: bool) -> Result<(), Failed>
    requires { IsRunning machine.now }
    ensures { PutsText S.Sink result (owners_lines machine.now over) out.old out.new }
{
    put_head(out, machine, over)?;
    put_hands(out, machine)?;
    put_frames(out, machine)?;
    put_transfers(out, machine)?;
    put_processes(out, machine)?;
    put_due(out, machine)?;
    put_swap(out, machine)
}

// Writes all lines through a buffer of its own.
fn write_lines<S: Sink>(sink: &mut S, machine: &Machine, over: bool) -> Result<(), Failed>
    requires { IsRunning machine.now }
    ensures { WritesText S.Sink result (owners_lines machine.now over) sink.old sink.new }
{
    let mut out = Writer::new(sink);
    put_lines(&mut out, machine, over)?;
    out.flush()
}

/// Writes who owns what in a machine that runs, a line for each: how many entries its journal has, and whether its run is
/// over; the two hands; each frame; the transfers in flight with their pages; the processes; the pages that are due; and
/// the pieces of swap, with what is free between them. It takes no memory. Where the sink failed, which its count of faults
/// tells, a prefix of all this is written.
pub fn write_owners<S: Sink>(sink: &mut S, machine: &Machine, over: bool) -> Moved
    requires { IsRunning machine.now }
    ensures { PutsBytes S.Sink (owners_lines machine.now over) result sink.old sink.new }
{
    match write_lines(sink, machine, over) {
        Ok(()) => Moved::Done,
        Err(Failed) => Moved::Failed,
    }
}
