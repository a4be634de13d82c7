//! What words do where files, swap devices and output are in memory.
ghost use Rattle.std.specs.Prelude.{◌<◌, ◌^◌, map, vec_len, IfOk};
ghost use Rattle.io_edge.specs.FileHolding.{named_file};
ghost use Rattle.command_words.specs.Asked.{request_of, asked_of};
ghost use Rattle.vm_run.specs.InMemory.{DoesInMemory, HeadlineInMemory};

use crate::command::vmrun;
use io_edge::{MemSink, NoMemory, Sink, SureFiles, SureSwap, SwapDev, are_octet_files};
use std::alloc::Global;

/// What a call in memory left.
#[derive(Drop)]
pub struct InMemory {
    /// The exit status.
    pub status: u8,

    /// Swap device 0.
    pub zero: SureSwap,

    /// Swap device 1.
    pub one: SureSwap,

    /// The output.
    pub output: MemSink,
}

/// Does what the words of a command line ask for, as `vmrun` does, over these files, each a name and its bytes, over two
/// blank swap devices of so many blocks, and an output with room for so many bytes, all in memory. Files and devices never
/// fail; the output does where a piece has no room. `Err` comes where there is no memory for the devices or the output.
pub fn vmrun_in_memory(
    alloc: Global,
    words: &[&str],
    files: Vec<(String, Vec<u8>)>,
    zero_blocks: u32,
    one_blocks: u32,
    room: usize,
) -> Result<InMemory, NoMemory>
    requires { vec_len files < 2 ^ 32 }
    ensures does { IfOk result (λ done. DoesInMemory (asked_of (map (λ word. word.now) words.now)) (map named_file files.items) zero_blocks one_blocks
        (⟦<SureSwap as SwapDev>⟧.image done.zero) (⟦<SureSwap as SwapDev>⟧.image done.one) (⟦<MemSink as Sink>⟧.written done.output)
        (⟦<MemSink as Sink>⟧.faults done.output) done.status) }
    ensures headline { IfOk result (λ done. HeadlineInMemory (request_of (map (λ word. word.now) words.now)) (map named_file files.items) zero_blocks one_blocks
        (⟦<MemSink as Sink>⟧.written done.output) (⟦<MemSink as Sink>⟧.faults done.output) done.status) }
{
    are_octet_files(files.as_slice());
    let mut files = SureFiles::new(files);
    let mut zero = SureSwap::new(alloc, zero_blocks)?;
    let mut one = SureSwap::new(alloc, one_blocks)?;
    let mut output = MemSink::new(alloc, room, Vec::new(alloc))?;
    let status = vmrun(alloc, words, &mut files, &mut zero, &mut one, &mut output);
    Ok(InMemory {
        status,
        zero,
        one,
        output,
    })
}
