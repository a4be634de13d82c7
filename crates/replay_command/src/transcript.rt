//! Reads a transcript's file, and its entries by the grammar.
ghost use Rattle.std.specs.Prelude.{◌≡◌, ◌≤◌, ◌<◌, ◌^◌, ℕ, List, length, IfOk};
ghost use Rattle.io_edge.specs.Calls.{KeepsFiles};
ghost use Rattle.io_edge.specs.FileHolding.{NamedFile};
ghost use Rattle.command_edge.specs.Told.{whole_told};
ghost use Rattle.command_edge.specs.Command.{EndCounted, Made};
ghost use Rattle.replay_command.specs.Reading.{transcript_bytes, EndsLines, EndsTranscript, items_of};

use crate::last_line::without_fault_line;
use command_edge::{Fault, read_whole};
use io_edge::Files;
use run_text::{Transcript, read_transcript};
use std::alloc::Global;
use vm_facts::Entry;

/// A transcript with more bytes than this isn't read.
pub const TRANSCRIPT_BYTES: u64 = 67_108_864;

/// A transcript has at most the number of bytes that FORMATS has.
pub fn transcript_bytes_are_documented()
    ensures { transcript_bytes ≡ 67108864 }
{}

// The entries that the bytes of a transcript are.
fn entries_of<'a>(alloc: Global, bytes: &[u8]) -> Result<Vec<Entry>, Fault<'a>>
    requires { length bytes.now ≤ 67108864 }
    ensures ends { EndsLines bytes.now (items_of result) }
    ensures few { IfOk result (λ entries. length entries.items ≤ 67108864) }
{
    match read_transcript(alloc, without_fault_line(bytes)) {
        Ok(Transcript::Is(entries)) => Ok(entries),
        Ok(Transcript::BadLine(line)) => Err(Fault::BadTranscript(line)),
        Err(_) => Err(Fault::NoMemory),
    }
}

/// The entries of the transcript of this name.
pub fn read_entries<'a, F: Files>(
    alloc: Global,
    files: &mut F,
    name: &'a str,
) -> Result<Vec<Entry>, Fault<'a>>
    ensures ends { Made (EndsTranscript name.now) (λ list. whole_told list name.now 67108864) (F.holds files.old)
        (record {
          open_before = F.open_faults files.old;
          open_after = F.open_faults files.new;
          page_before = F.page_faults files.old;
          page_after = F.page_faults files.new;
        }) (items_of result) }
    ensures counted { EndCounted (items_of result) (record {
      open_before = F.open_faults files.old;
      open_after = F.open_faults files.new;
      page_before = F.page_faults files.old;
      page_after = F.page_faults files.new;
    }) }
    ensures few { IfOk result (λ entries. length entries.items ≤ 67108864) }
    ensures kept { KeepsFiles F.Files files.old files.new }
{
    match read_whole(alloc, files, name, TRANSCRIPT_BYTES) {
        Ok(Some(bytes)) => entries_of(alloc, bytes.as_slice()),
        Ok(None) => Err(Fault::TooLong),
        Err(unread) => Err(Fault::of_unread(name, unread)),
    }
}
