//! The run that README shows, made in memory, writes just the six lines that README shows, and ends with status 0; or
//! its output fails, or memory is wanted.
ghost use Rattle.std.specs.Prelude.{◌≡◌, map, IfOk};
ghost use Rattle.io_edge.specs.FileHolding.{named_file};
ghost use Rattle.vmrun_callers.specs.FirstRun.{first_files, IsFirstRun};

use io_edge::{MemSink, NoMemory, Sink};
use std::alloc::Global;
use vm_run::{InMemory, vmrun_in_memory};

/// Makes the run `run 64 256 100 s hi` in memory, over an empty schedule `s` and the image `hi`, which writes "hi" and exits. The
/// devices have the 256 blocks that it asks for; the output has room for so many bytes, of which 37 are written. `Err` comes where there
/// is no memory for the devices or the output.
pub fn first_run(
    alloc: Global,
    files: Vec<(String, Vec<u8>)>,
    room: usize,
) -> Result<InMemory, NoMemory>
    requires files { map named_file files.items ≡ first_files }
    ensures run { IfOk result (λ done. IsFirstRun done.status (⟦<MemSink as Sink>⟧.written done.output)) }
{
    vmrun_in_memory(
        alloc,
        &["run", "64", "256", "100", "s", "hi"],
        files,
        256,
        0,
        room,
    )
}
