//! A caller that runs and then replays: what was written is accepted.
ghost use Rattle.std.specs.Prelude.{◌≡◌, ◌<◌, ◌+◌, ◌^◌, IsTrue, None, map, vec_len, IfOk};
ghost use Rattle.io_edge.specs.FileHolding.{named_file, place_of};
ghost use Rattle.command_words.specs.Words.{is_plain, is_name};
ghost use Rattle.command_words.specs.Asked.{asked_of};
ghost use Rattle.vm_run.specs.InMemory.{DoesInMemory};
ghost use Rattle.vmrun_callers.specs.Replayed.{RunIsReplayed};

use crate::copying::{copies_of, with_file};
use crate::words::replay_words;
use io_edge::{MemSink, NoMemory, Sink, SureSwap, SwapDev};
use std::alloc::Global;
use vm_run::{InMemory, vmrun_in_memory};

/// The bytes that there is room for when a transcript is judged.
const ROOM: usize = 128;

/// What a run left, and what the replay of its text did.
#[derive(Drop)]
pub struct Replayed {
    /// What the words left.
    pub run: InMemory,

    /// What the replay left.
    pub replay: InMemory,
}

/// Does what the words of a command line ask for in memory, as `vmrun_in_memory` does, and hands what was written to `replay`,
/// in memory too: as a file of this name beside the same files, with the images that the words name. Where the words ask for a
/// run that is finished, its text is judged to be a run of the flat machine, of as many entries as it has lines; unless it is
/// longer than a transcript may be, or memory lacks.
pub fn run_and_replay(
    alloc: Global,
    words: &[&str],
    files: Vec<(String, Vec<u8>)>,
    zero_blocks: u32,
    one_blocks: u32,
    room: usize,
    transcript: &str,
) -> Result<Replayed, NoMemory>
    requires files { vec_len files + 1 < 2 ^ 32 }
    requires plain { IsTrue (is_plain transcript.now) }
    requires name { IsTrue (is_name transcript.now) }
    requires new { place_of (map named_file files.items) transcript.now ≡ None }
    ensures run { IfOk result (λ done. DoesInMemory
        (asked_of (map (λ word. word.now) words.now)) (map named_file files.items) zero_blocks one_blocks
        (⟦<SureSwap as SwapDev>⟧.image done.run.zero) (⟦<SureSwap as SwapDev>⟧.image done.run.one)
        (⟦<MemSink as Sink>⟧.written done.run.output) (⟦<MemSink as Sink>⟧.faults done.run.output) done.run.status) }
    ensures replayed { IfOk result (λ done. RunIsReplayed (asked_of (map (λ word. word.now) words.now))
        done.run.status (⟦<MemSink as Sink>⟧.written done.run.output)
        done.replay.status (⟦<MemSink as Sink>⟧.written done.replay.output)) }
{
    let copies = copies_of(alloc, files.as_slice())?;
    let run = vmrun_in_memory(alloc, words, files, zero_blocks, one_blocks, room)?;
    let beside = with_file(alloc, copies, transcript, run.output.written())?;
    let asked = replay_words(alloc, words, transcript)?;
    let replay = vmrun_in_memory(alloc, asked.as_slice(), beside, 0, 0, ROOM)?;
    Ok(Replayed { run, replay })
}
