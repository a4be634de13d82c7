//! Paging is not seen: two runs of one image, in memory, write the same outputs, replies and end, whatever the
//! frames, the swap space and the schedule are.
ghost use Rattle.std.specs.Prelude.{◌<◌, ◌^◌, map, vec_len, IfOk};
ghost use Rattle.io_edge.specs.FileHolding.{named_file};
ghost use Rattle.command_words.specs.Asked.{request_of, asked_of};
ghost use Rattle.vm_run.specs.InMemory.{DoesInMemory};
ghost use Rattle.vmrun_callers.specs.Unseen.{PagingIsUnseen};

use io_edge::{MemSink, NoMemory, Sink, SureSwap, SwapDev};
use std::alloc::Global;
use vm_run::{InMemory, vmrun_in_memory};

/// What is handed to one call.
#[derive(Drop)]
pub struct Call<'a> {
    /// The words of the command line.
    pub words: &'a [&'a str],

    /// The files, each a name and its bytes.
    pub files: Vec<(String, Vec<u8>)>,

    /// The blocks of swap device 0.
    pub zero_blocks: u32,

    /// The blocks of swap device 1.
    pub one_blocks: u32,

    /// The room of the output, in bytes.
    pub room: usize,
}

/// What two calls left.
#[derive(Drop)]
pub struct TwoRuns {
    /// What the first left.
    pub one: InMemory,

    /// What the second left.
    pub other: InMemory,
}

/// Makes two calls of `vmrun_in_memory`. Where both ask for a run that starts the same image, and are finished, the outputs, the
/// replies and the end of its process are the same in both texts. Its process may have no child, and be refused no swap space.
pub fn two_runs(alloc: Global, one: Call<'_>, other: Call<'_>) -> Result<TwoRuns, NoMemory>
    requires files { vec_len one.files < 2 ^ 32 }
    requires other_files { vec_len other.files < 2 ^ 32 }
    ensures first { IfOk result (λ done. DoesInMemory
        (asked_of (map (λ word. word.now) one.entry.words.now)) (map named_file one.entry.files.items) one.entry.zero_blocks one.entry.one_blocks
        (⟦<SureSwap as SwapDev>⟧.image done.one.zero) (⟦<SureSwap as SwapDev>⟧.image done.one.one)
        (⟦<MemSink as Sink>⟧.written done.one.output) (⟦<MemSink as Sink>⟧.faults done.one.output) done.one.status) }
    ensures second { IfOk result (λ done. DoesInMemory
        (asked_of (map (λ word. word.now) other.entry.words.now)) (map named_file other.entry.files.items) other.entry.zero_blocks other.entry.one_blocks
        (⟦<SureSwap as SwapDev>⟧.image done.other.zero) (⟦<SureSwap as SwapDev>⟧.image done.other.one)
        (⟦<MemSink as Sink>⟧.written done.other.output) (⟦<MemSink as Sink>⟧.faults done.other.output) done.other.status) }
    ensures unseen { IfOk result (λ done. PagingIsUnseen
        (request_of (map (λ word. word.now) one.entry.words.now)) (map named_file one.entry.files.items)
        done.one.status (⟦<MemSink as Sink>⟧.written done.one.output)
        (request_of (map (λ word. word.now) other.entry.words.now)) (map named_file other.entry.files.items)
        done.other.status (⟦<MemSink as Sink>⟧.written done.other.output)) }
{
    let first = vmrun_in_memory(
        alloc,
        one.words,
        one.files,
        one.zero_blocks,
        one.one_blocks,
        one.room,
    )?;
    let second = vmrun_in_memory(
        alloc,
        other.words,
        other.files,
        other.zero_blocks,
        other.one_blocks,
        other.room,
    )?;
    Ok(TwoRuns {
        one: first,
        other: second,
    })
}
