//! Writes the text of a journal, with its paging entries or without. Without them neighbouring counts of one process
//! become one line.
#![tactic(auto, using(crate::proofs::Putting::text_none))]

ghost use Rattle.std.specs.Prelude.{◌≡◌, ℕ, ◌+◌, ◌^◌, ◌<◌, ◌≤◌, Bool, true, false, Option, Some, None, List, [], ◌∷◌, ◌++◌, codes, OnOk};
ghost use Rattle.io_edge.specs.Calls.{PutsBytes};
ghost use Rattle.vm_facts.specs.declared.entry.Entry.TheVariants.{Ran};
ghost use Rattle.run_text.specs.Text.{part, line_of, lines_of, is_paging, joined, without_paging, text_of};
ghost use Rattle.run_text.specs.Running.{waiting_text, waiting_count, text_before, run_with, other_text, other_run, text_at, run_after};
ghost use Rattle.run_text.specs.Writing.{PutsText, WritesText};

use crate::line::{put_both, put_entry, put_named};
use crate::waiting::Run;
use crate::writer::Writer;
use io_edge::{Failed, Moved, Sink};
use itoa::Buffer;
use vm_facts::Entry;

// Puts the lines of entries.
fn put_lines<S: Sink>(out: &mut Writer<'_, S>, entries: &[Entry]) -> Result<(), Failed>
    ensures { PutsText S.Sink result (lines_of entries.now) out.old out.new }
{
    for e in entries {
        put_entry(out, e)?;
    }
    Ok(())
}

// Whether the entry is a paging entry.
fn is_paging(e: &Entry) -> bool
    ensures { result ≡ is_paging e.now }
{
    match e {
        Entry::Event { .. } => false,
        Entry::Turn { .. } => false,
        Entry::Ran { .. } => false,
        Entry::Out { .. } => false,
        Entry::Grew { .. } => false,
        Entry::Call { .. } => false,
        Entry::Refused { .. } => false,
        Entry::Sleeps { .. } => false,
        Entry::Ended { .. } => false,
        Entry::Zero { .. } => true,
        Entry::Get { .. } => true,
        Entry::Copy { .. } => true,
        Entry::Reclaim { .. } => true,
        Entry::Hands { .. } => true,
        Entry::Put { .. } => true,
        Entry::Done => true,
        Entry::SwapOut { .. } => true,
        Entry::SwapIn { .. } => true,
        Entry::Owners { .. } => true,
    }
}

// Puts a number of any size after a space.
fn put_large_number<S: Sink>(out: &mut Writer<'_, S>, number: u128) -> Result<(), Failed>
    ensures { PutsText S.Sink result (part number) out.old out.new }
{
    let mut digits = Buffer::new();
    put_both(out, b" ", digits.format(number).as_bytes())
}

// Puts a number of any size and the line's end.
fn put_last_number<S: Sink>(out: &mut Writer<'_, S>, number: u128) -> Result<(), Failed>
    ensures { PutsText S.Sink result (part number ++ codes "\n") out.old out.new }
{
    put_large_number(out, number)?;
    out.put(b"\n")
}

// Puts the line of a joined `Ran`.
fn put_ran<S: Sink>(out: &mut Writer<'_, S>, pid: u32, count: u128) -> Result<(), Failed>
    ensures { PutsText S.Sink result (line_of (Ran pid count)) out.old out.new }
{
    put_named(out, b"r", &[pid])?;
    put_last_number(out, count)
}

// Puts the line of what waits.
fn put_run<S: Sink>(out: &mut Writer<'_, S>, run: &Option<Run>) -> Result<(), Failed>
    ensures { PutsText S.Sink result (waiting_text run.now) out.old out.new }
{
    match run {
        None => Ok(()),
        Some(waiting) => put_ran(out, waiting.pid, waiting.count),
    }
}

// A `Ran` comes: it's joined to one of its process that waits; else it waits in place of that one.
fn put_counted<S: Sink>(
    out: &mut Writer<'_, S>,
    run: &mut Option<Run>,
    pid: u32,
    count: u32,
) -> Result<(), Failed>
    requires { waiting_count run.old + 2 ^ 32 < 2 ^ 128 }
    ensures puts { PutsText S.Sink result (text_before run.old pid) out.old out.new }
    ensures run { OnOk result (run.new ≡ Some (run_with run.old pid count)) }
    ensures count { OnOk result (waiting_count run.new ≤ waiting_count run.old + 2 ^ 32) }
{
    if let Some(waiting) = run {
        if waiting.pid == pid {
            waiting.count += count as u128;
            return Ok(());
        }
    }
    let ended = run.replace(Run {
        pid,
        count: count as u128,
    });
    put_run(out, &ended)
}

// An entry comes that isn't a `Ran`: where it's no paging entry, it's put after what waits.
fn put_other<S: Sink>(
    out: &mut Writer<'_, S>,
    run: &mut Option<Run>,
    e: &Entry,
) -> Result<(), Failed>
    ensures puts { PutsText S.Sink result (other_text (is_paging e.now) run.old e.now) out.old out.new }
    ensures run { OnOk result (run.new ≡ other_run (is_paging e.now) run.old) }
    ensures count { OnOk result (waiting_count run.new ≤ waiting_count run.old) }
{
    if is_paging(e) {
        return Ok(());
    }
    let ended = run.take();
    put_run(out, &ended)?;
    put_entry(out, e)
}

// An entry comes.
fn put_next<S: Sink>(
    out: &mut Writer<'_, S>,
    run: &mut Option<Run>,
    e: &Entry,
) -> Result<(), Failed>
    requires { waiting_count run.old + 2 ^ 32 < 2 ^ 128 }
    ensures puts { PutsText S.Sink result (text_at run.old e.now) out.old out.new }
    ensures run { OnOk result (run.new ≡ run_after run.old e.now) }
    ensures count { OnOk result (waiting_count run.new ≤ waiting_count run.old + 2 ^ 32) }
{
    match e {
        Entry::Ran { pid, count } => put_counted(out, run, *pid, *count),
        _ => put_other(out, run, e),
    }
}

// Puts the lines of the entries without the paging entries, joined.
fn put_joined<S: Sink>(out: &mut Writer<'_, S>, entries: &[Entry]) -> Result<(), Failed>
    ensures { PutsText S.Sink result (lines_of (joined (without_paging entries.now))) out.old out.new }
{
    let mut run = None;
    for e in entries {
        put_next(out, &mut run, e)?;
    }
    put_run(out, &run)
}

// Puts the text of a journal.
#[tactic(auto, unfolding(crate::specs::Text::text_of))]
fn put_text<S: Sink>(out: &mut Writer<'_, S>, trace: bool, entries: &[Entry]) -> Result<(), Failed>
    ensures { PutsText S.Sink result (text_of trace entries.now) out.old out.new }
{
    if trace {
        put_lines(out, entries)
    } else {
        put_joined(out, entries)
    }
}

// Puts the text of a journal and what follows it.
fn put_text_and<S: Sink>(
    out: &mut Writer<'_, S>,
    trace: bool,
    entries: &[Entry],
    last: &[u8],
) -> Result<(), Failed>
    ensures { PutsText S.Sink result (text_of trace entries.now ++ last.now) out.old out.new }
{
    put_text(out, trace, entries)?;
    out.put(last)
}

// Writes the line of an entry through a buffer of its own.
fn write_line<S: Sink>(sink: &mut S, e: &Entry) -> Result<(), Failed>
    ensures { WritesText S.Sink result (line_of e.now) sink.old sink.new }
{
    let mut out = Writer::new(sink);
    put_entry(&mut out, e)?;
    out.flush()
}

/// Writes the line of an entry, with its end, and takes no memory. Where the sink failed, which its
/// count of faults tells, a prefix of the line is written.
pub fn write_entry<S: Sink>(sink: &mut S, e: &Entry) -> Moved
    ensures { PutsBytes S.Sink (line_of e.now) result sink.old sink.new }
{
    match write_line(sink, e) {
        Ok(()) => Moved::Done,
        Err(Failed) => Moved::Failed,
    }
}

// Writes the text of a journal and what follows it through a buffer of its own.
fn write_whole<S: Sink>(
    sink: &mut S,
    trace: bool,
    entries: &[Entry],
    last: &[u8],
) -> Result<(), Failed>
    ensures { WritesText S.Sink result (text_of trace entries.now ++ last.now) sink.old sink.new }
{
    let mut out = Writer::new(sink);
    put_text_and(&mut out, trace, entries, last)?;
    out.flush()
}

/// Writes the text of a journal, with the paging entries or without them, and after it the last
/// bytes, which are a fault line or none. It takes no memory: the text goes through a buffer of
/// 4,096 bytes, so it costs few calls of the sink, and none where there is nothing to write. Where
/// the sink failed, which its count of faults tells, a prefix of all this is written.
pub fn write_text<S: Sink>(sink: &mut S, trace: bool, entries: &[Entry], last: &[u8]) -> Moved
    ensures { PutsBytes S.Sink (text_of trace entries.now ++ last.now) result sink.old sink.new }
{
    match write_whole(sink, trace, entries, last) {
        Ok(()) => Moved::Done,
        Err(Failed) => Moved::Failed,
    }
}
