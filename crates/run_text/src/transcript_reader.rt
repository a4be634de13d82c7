//! Reads a transcript, exactly by its grammar. Whether it is a run isn't asked here.
ghost use Rattle.std.specs.Prelude.{◌≡◌, ◌^◌, ◌<◌, List, length, IfOk};
ghost use Rattle.vm_facts.specs.declared.entry.Entry.{Entry};
ghost use Rattle.run_text.specs.Text.{lines_of};
ghost use Rattle.run_text.specs.Transcript.{AreWithin, IsReadTranscript, IsRead};

use crate::answers::Transcript;
use crate::entry_reader::read_entry_line;
use crate::pieces::first_line;
use std::alloc::Global;
use vm_facts::NoMemory;

/// Reads a transcript (this project's profile), and is exact: the entries of its lines, or the number
/// of the first line that is none of an entry within its ranges. Such lines are those that are written
/// for entries: numbers are decimal without leading zeros and below 2^32, and the count of a `r`, `g`,
/// `G`, `H` or `P` and the number of bytes of an `o` are at least 1. A last line without a line feed is
/// bad. Neighbours that could be joined are allowed.
pub fn read_transcript(alloc: Global, bytes: &[u8]) -> Result<Transcript, NoMemory>
    requires { length bytes.now < 2 ^ 32 }
    ensures exact { IfOk result (IsReadTranscript bytes.now) }
    ensures written { (es : List Entry) → AreWithin es → bytes.now ≡ lines_of es → IfOk result (IsRead es) }
{
    let mut entries = Vec::new(alloc);
    let mut rest = bytes;
    let mut line: u32 = 0;
    while !rest.is_empty() {
        line += 1;
        let (first, more) = first_line(rest);
        let entry = match read_entry_line(alloc, first) {
            Ok(Some(entry)) => entry,
            Ok(None) => return Ok(Transcript::BadLine(line)),
            Err(_) => return Err(NoMemory),
        };
        let Ok(()) = entries.push(entry) else {
            return Err(NoMemory);
        };
        rest = more;
    }
    Ok(Transcript::Is(entries))
}
