//! `as`: a source is read and assembled, and the file of its program written.
ghost use Rattle.std.specs.Prelude.{◌≡◌};
ghost use Rattle.io_edge.specs.Calls.{KeepsFiles};
ghost use Rattle.io_edge.specs.FileHolding.{NamedFile};
ghost use Rattle.command_edge.specs.Told.{bytes_told};
ghost use Rattle.command_edge.specs.Ending.{ending_of};
ghost use Rattle.command_edge.specs.Command.{EndCounted, Made};
ghost use Rattle.source_commands.specs.Command.{source_bytes, Assembles, EndsAssembly};

use crate::program_file::file_of;
use command_edge::{Fault, read_file, write_ending};
use io_edge::{Files, Sink};
use std::alloc::Global;
use vax_asm::{Assembled, assemble};

/// How many bytes of a source are read. A good one has at most 4,096 lines of 121 bytes, which is one byte less.
pub const SOURCE_BYTES: u64 = 495_617;

/// A source is read up to the number of bytes that FORMATS has.
pub fn source_bytes_are_documented()
    ensures { source_bytes ≡ 495617 }
{}

// The file that a source makes.
fn file_from<'a, F: Files>(
    alloc: Global,
    files: &mut F,
    name: &'a str,
) -> Result<Vec<u8>, Fault<'a>>
    ensures made { Made (EndsAssembly name.now) (λ list. bytes_told list name.now 495617) (F.holds files.old)
        (record {
          open_before = F.open_faults files.old;
          open_after = F.open_faults files.new;
          page_before = F.page_faults files.old;
          page_after = F.page_faults files.new;
        }) (ending_of result) }
    ensures counted { EndCounted (ending_of result) (record {
      open_before = F.open_faults files.old;
      open_after = F.open_faults files.new;
      page_before = F.page_faults files.old;
      page_after = F.page_faults files.new;
    }) }
    ensures kept { KeepsFiles F.Files files.old files.new }
{
    let source = match read_file(alloc, files, name, SOURCE_BYTES) {
        Ok(source) => source,
        Err(unread) => return Err(Fault::of_unread(name, unread)),
    };
    match assemble(alloc, source.as_slice()) {
        Ok(Assembled::Is(program)) => match file_of(alloc, &program) {
            Ok(file) => Ok(file),
            Err(_) => Err(Fault::NoMemory),
        },
        Ok(Assembled::BadLine(line)) => Err(Fault::BadSource(line)),
        Err(_) => Err(Fault::NoMemory),
    }
}

/// Assembles the source of this name, writes the file of its program, and answers the exit status: 0
/// where it was written; 2 an absent file; 5 a file fault; 8 a fault of the output; 9 want of memory;
/// 17 a bad source. At any other status than 0 and 8 the line of the fault is written instead (this
/// project's profile). Of a source of more than 495,617 bytes, which is bad, no more are read, and the line that is named
/// is the lowest bad one of these: a label that is defined after them isn't seen.
pub fn assemble_file<F: Files, S: Sink>(
    alloc: Global,
    files: &mut F,
    sink: &mut S,
    name: &str,
) -> u8
    ensures assembles { Assembles name.now (F.holds files.old)
        (record {
          open_before = F.open_faults files.old;
          open_after = F.open_faults files.new;
          page_before = F.page_faults files.old;
          page_after = F.page_faults files.new;
        })
        (S.written sink.old) (S.written sink.new) (S.faults sink.old) (S.faults sink.new) result }
    ensures kept { KeepsFiles F.Files files.old files.new }
    ensures sink_leads { S.leads sink.old sink.new }
{
    let made = file_from(alloc, files, name);
    write_ending(alloc, sink, made)
}
