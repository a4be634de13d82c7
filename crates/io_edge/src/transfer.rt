//! Reads and writes of whole ranges with a `Result`, for code that uses `?`.
ghost use Rattle.std.specs.Prelude.{◌≡◌, ◌<◌, length, OnOk, OnErr};
ghost use Rattle.io_edge.specs.Transfer.{CountsErr, range_asked};
ghost use Rattle.io_edge.specs.FileRequests.{after_requests};
ghost use Rattle.io_edge.specs.FileHolding.{HasRange, HoldsRange};
ghost use Rattle.io_edge.specs.Written.{Appends, AppendsSome};

use crate::{Failed, Files, Moved, Sink};

/// Appends bytes to a sink, by one call. Where that failed, a prefix of them was appended.
pub fn put_all<S: Sink>(sink: &mut S, bytes: &[u8]) -> Result<(), Failed>
    ensures leads { S.leads sink.old sink.new }
    ensures done { OnOk result (Appends (S.written sink.old) bytes.now (S.written sink.new)) }
    ensures failed { OnErr result (AppendsSome (S.written sink.old) bytes.now (S.written sink.new)) }
    ensures faults { CountsErr result (S.faults sink.old) (S.faults sink.new) }
{
    match sink.put(bytes) {
        Moved::Done => Ok(()),
        Moved::Failed => Err(Failed),
    }
}

/// Fills a buffer from this offset of a found file on, by one call; an empty one needs no call.
pub fn read_range<F: Files>(
    files: &mut F,
    id: u32,
    offset: u64,
    buf: &mut [u8],
) -> Result<(), Failed>
    requires { HasRange (F.holds files.old) id offset (length buf.old) }
    ensures leads { F.leads files.old files.new }
    ensures holds { F.holds files.new ≡ F.holds files.old }
    ensures notes { F.notes files.new ≡ after_requests (range_asked id offset (length buf.old)) (F.notes files.old) }
    ensures done { OnOk result (HoldsRange (F.holds files.old) id offset buf.new) }
    ensures open_faults { offset ≡ 0 → CountsErr result (F.open_faults files.old) (F.open_faults files.new) }
    ensures open_stays { 0 < offset → F.open_faults files.new ≡ F.open_faults files.old }
    ensures page_faults { 0 < offset → CountsErr result (F.page_faults files.old) (F.page_faults files.new) }
    ensures page_stays { offset ≡ 0 → F.page_faults files.new ≡ F.page_faults files.old }
{
    if buf.is_empty() {
        return Ok(());
    }
    match files.read_at(id, offset, buf) {
        Moved::Done => Ok(()),
        Moved::Failed => Err(Failed),
    }
}
