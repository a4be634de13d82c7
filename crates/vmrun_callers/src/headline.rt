//! A caller of `vmrun` of which nothing but the headline is promised. So each body that spoils the headline is
//! refused by that clause alone; edits/ has eight of them.
ghost use Rattle.std.specs.Prelude.{map};
ghost use Rattle.command_edge.specs.Command.{Writes};
ghost use Rattle.command_words.specs.Asked.{request_of};
ghost use Rattle.vm_run.specs.Sight.{call_faults};
ghost use Rattle.vm_run.specs.Headline.{CarriesFor};

use io_edge::{Files, MemSink, Moved, Sink, SwapDev};
use std::alloc::Global;
use vm_run::vmrun;

/// Writes these bytes, and answers this status; 8 where the output fails. It says nothing of a run.
pub fn say<S: Sink>(sink: &mut S, text: &[u8], status: u8) -> u8
    ensures { Writes (S.written sink.old) (S.written sink.new) (S.faults sink.old) (S.faults sink.new) text.now status result }
{
    match sink.put(text) {
        Moved::Done => status,
        Moved::Failed => 8,
    }
}

/// An output in memory, of a mebibyte.
pub fn kept(alloc: Global) -> Option<MemSink> {
    MemSink::new(alloc, 1_048_576, Vec::new(alloc)).ok()
}

/// Does what the words of a command line ask for, as `vmrun` does.
pub fn headlined<F: Files, D: SwapDev, E: SwapDev, S: Sink>(
    alloc: Global,
    words: &[&str],
    files: &mut F,
    zero: &mut D,
    one: &mut E,
    sink: &mut S,
) -> u8
    ensures headline { CarriesFor (request_of (map (λ word. word.now) words.now)) (F.holds files.old) (D.image zero.old) (E.image one.old)
        (D.blocks zero.old) (E.blocks one.old) (S.written sink.old) (S.written sink.new) (S.faults sink.old) (S.faults sink.new)
        (call_faults F.Files D.SwapDev E.SwapDev files.old files.new zero.old zero.new one.old one.new) result }
{
    vmrun(alloc, words, files, zero, one, sink)
}
