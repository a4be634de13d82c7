//! `policies`: the references of a file are read, compared, and answered as a text.
ghost use Rattle.std.specs.Prelude.{◌≡◌, ◌≤◌, ◌<◌, ◌^◌, length, IfOk};
ghost use Rattle.io_edge.specs.Calls.{KeepsFiles};
ghost use Rattle.reference_answers.specs.Grammar.{most_references};
ghost use Rattle.command_words.specs.Command.{IsFittingComparison};
ghost use Rattle.command_edge.specs.Ending.{ending_of};
ghost use Rattle.command_edge.specs.Command.{EndCounted, Made};
ghost use Rattle.reference_answers.specs.Command.{references_bytes, references_told, EndsBytes, SaysOfPolicies, EndsText, EndsPolicies, Compares};

use crate::{References, policies_text, read_references, sweep_text};
use command_edge::{Fault, read_whole, write_ending};
use command_words::Comparison;
use io_edge::{Files, Sink};
use std::alloc::Global;
use vm_facts::{NoMemory, Page};

/// The most bytes of a file of references.
pub const REFERENCES_BYTES: u64 = 67_108_864;

/// A file of references has at most the number of bytes that FORMATS has.
pub fn reference_bytes_are_documented()
    ensures { references_bytes ≡ 67108864 }
{}

// The references that the bytes of a file are.
fn references_of<'a>(alloc: Global, bytes: &[u8]) -> Result<Vec<Page>, Fault<'a>>
    requires { length bytes.now < 2 ^ 32 }
    ensures ends { EndsBytes bytes.now result }
    ensures few { IfOk result (λ refs. length refs.items ≤ most_references) }
{
    match read_references(alloc, bytes) {
        Ok(References::Are(refs)) => Ok(refs),
        Ok(References::BadLine(line)) => Err(Fault::BadReferences(line)),
        Err(_) => Err(Fault::NoMemory),
    }
}

// The text about policies on references.
fn compare(alloc: Global, comparison: Comparison, refs: &[Page]) -> Result<Vec<u8>, NoMemory>
    requires fits { IsFittingComparison comparison }
    requires few { length refs.now ≤ most_references }
    ensures { IfOk result (λ text. SaysOfPolicies comparison refs.now text.items) }
{
    match comparison {
        Comparison::At { frames, spread } => policies_text(alloc, refs, frames, spread),
        Comparison::Sweep { from, to, every } => sweep_text(alloc, refs, from, to, every),
    }
}

// The text about policies on the references that the bytes of a file are.
fn compare_on<'a>(alloc: Global, comparison: Comparison, bytes: &[u8]) -> Result<Vec<u8>, Fault<'a>>
    requires fits { IsFittingComparison comparison }
    requires small { length bytes.now < 2 ^ 32 }
    ensures { EndsText comparison bytes.now (ending_of result) }
{
    let refs = references_of(alloc, bytes)?;
    match compare(alloc, comparison, refs.as_slice()) {
        Ok(text) => Ok(text),
        Err(_) => Err(Fault::NoMemory),
    }
}

// The text about policies on the references of the file of this name.
fn text_from<'a, F: Files>(
    alloc: Global,
    files: &mut F,
    comparison: Comparison,
    name: &'a str,
) -> Result<Vec<u8>, Fault<'a>>
    requires { IsFittingComparison comparison }
    ensures made { Made (EndsPolicies comparison name.now) (references_told name.now) (F.holds files.old)
        (record {
          open_before = F.open_faults files.old;
          open_after = F.open_faults files.new;
          page_before = F.page_faults files.old;
          page_after = F.page_faults files.new;
        }) (ending_of result) }
    ensures counted { EndCounted (ending_of result) (record {
      open_before = F.open_faults files.old;
      open_after = F.open_faults files.new;
      page_before = F.page_faults files.old;
      page_after = F.page_faults files.new;
    }) }
    ensures kept { KeepsFiles F.Files files.old files.new }
{
    match read_whole(alloc, files, name, REFERENCES_BYTES) {
        Ok(Some(bytes)) => compare_on(alloc, comparison, bytes.as_slice()),
        Ok(None) => Err(Fault::ReferencesTooLong),
        Err(unread) => Err(Fault::of_unread(name, unread)),
    }
}

/// Reads the references of the file of this name, writes how many page faults FIFO, the clock with one hand and with two, LRU and
/// the best plan have on them with so many frames, or a line of these for each of several numbers of frames, and answers the exit
/// status: 0 where that was written; 2 an absent file; 5 a file fault; 8 a fault of the output; 9 want of memory; 16 more than
/// 67,108,864 bytes; 18 a bad line. At any other status than 0 and 8 the line of the fault is written instead; an output that
/// fails gives 8 whatever came before (this project's profile).
pub fn compare_policies<F: Files, S: Sink>(
    alloc: Global,
    files: &mut F,
    sink: &mut S,
    comparison: Comparison,
    name: &str,
) -> u8
    requires { IsFittingComparison comparison }
    ensures compares { Compares comparison name.now (F.holds files.old)
        (record {
          open_before = F.open_faults files.old;
          open_after = F.open_faults files.new;
          page_before = F.page_faults files.old;
          page_after = F.page_faults files.new;
        })
        (S.written sink.old) (S.written sink.new) (S.faults sink.old) (S.faults sink.new) result }
    ensures kept { KeepsFiles F.Files files.old files.new }
    ensures sink_leads { S.leads sink.old sink.new }
{
    let made = text_from(alloc, files, comparison, name);
    write_ending(alloc, sink, made)
}
