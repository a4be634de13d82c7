//! The calls of the devices that complete a transfer, page by page, up to the first fault. Their order may not
//! change, and only ring.rt may ask for them.
ghost use Rattle.std.specs.Prelude.{◌≡◌, length, take, drop, replicate, ◌-◌, ◌<◌, ◌≤◌};
ghost use Rattle.transfer_ring.specs.Moving.{AsksFor, NotesFor, OnFilled, FailsFrom, FailsFromSome, CountsFile, CountsSwap};
ghost use Rattle.transfer_ring.specs.Sound.{IsSource, IsSourceThere, AreSources, AreThere, AreBlocks};
ghost use Rattle.transfer_ring.specs.Parts.{AsksSource, AsksFile, HasRead, IsSamePart, AreSameParts, PartsAreRead, WritesParts, SpoilsParts};
ghost use Rattle.io_edge.specs.Calls.{ReadsPages, ReadsSwap, WritesSwap};
ghost use Rattle.io_edge.specs.Count.{Counts, OnDone, OnFailed};
ghost use Rattle.io_edge.specs.FileHolding.{HasRange, HoldsRange};
ghost use Rattle.io_edge.specs.FileRequests.{FileRead, after_request};
ghost use Rattle.io_edge.specs.SwapImage.{bytes_told};

use crate::{Inbound, Outbound, Source};
use io_edge::{Files, Moved, SwapDev};

/// How a read ended.
#[derive(Clone, Copy, PartialEq, Eq, Debug, Drop)]
pub enum Filled {
    Done,
    FileFault,
    SwapFault,
}

// Fills a page with these bytes of a file, and zeros after them.
fn fill_from_file<F: Files>(
    page: &mut [u8; 1024],
    files: &mut F,
    id: u32,
    offset: u64,
    count: u32,
) -> Moved
    requires above { 0 < offset }
    requires fits { count ≤ 1024 }
    requires there { HasRange (F.holds files.old) id offset count }
    ensures files { ReadsPages F.Files files.old files.new }
    ensures notes { F.notes files.new ≡ after_request (FileRead id offset count) (F.notes files.old) }
    ensures done { OnDone result (HoldsRange (F.holds files.old) id offset (take count page.new)) }
    ensures zeros { OnDone result (drop count page.new ≡ replicate (1024 - count) 0) }
    ensures page_faults { Counts result (F.page_faults files.old) (F.page_faults files.new) }
{
    let (range, rest) = page.split_at_mut(count as usize);
    rest.fill(0);
    files.read_at(id, offset, range)
}

// Fills the page of one part.
fn fill<F: Files, D: SwapDev>(part: &mut Inbound, files: &mut F, swap: &mut D) -> Filled
    requires source { IsSource part.old.source }
    requires there { IsSourceThere (F.holds files.old) (D.blocks swap.old) part.old.source }
    ensures same { IsSamePart part.old part.new }
    ensures read { OnFilled result (HasRead (F.holds files.old) (bytes_told (D.image swap.old)) part.old.source part.new.token.bytes) }
    ensures fault { FailsFrom result part.old.source }
    ensures files { ReadsPages F.Files files.old files.new }
    ensures swap { ReadsSwap D.SwapDev swap.old swap.new }
    ensures asked { AsksSource part.old.source (D.image swap.old) (D.image swap.new) }
    ensures notes { AsksFile part.old.source (F.notes files.old) (F.notes files.new) }
    ensures page_faults { CountsFile result (F.page_faults files.old) (F.page_faults files.new) }
    ensures read_faults { CountsSwap result (D.read_faults swap.old) (D.read_faults swap.new) }
{
    match part.source {
        Source::Swap(block) => match swap.read(block, part.token.bytes_mut()) {
            Moved::Done => Filled::Done,
            Moved::Failed => Filled::SwapFault,
        },
        Source::File { id, offset, count } => {
            match fill_from_file(part.token.bytes_mut(), files, id, offset, count) {
                Moved::Done => Filled::Done,
                Moved::Failed => Filled::FileFault,
            }
        }
    }
}

/// Fills the pages of all parts in turn, up to the first fault.
#[tactic(auto, using(crate::proofs::PartLemmas::same_each))]
pub(crate) fn fill_all<F: Files, D: SwapDev>(
    parts: &mut [Inbound],
    files: &mut F,
    swap: &mut D,
) -> Filled
    requires sources { AreSources parts.old }
    requires there { AreThere (F.holds files.old) (D.blocks swap.old) parts.old }
    ensures same { AreSameParts parts.old parts.new }
    ensures read { OnFilled result (PartsAreRead (F.holds files.old) (bytes_told (D.image swap.old)) parts.new) }
    ensures fault { FailsFromSome result parts.old }
    ensures files { ReadsPages F.Files files.old files.new }
    ensures swap { ReadsSwap D.SwapDev swap.old swap.new }
    ensures asked { AsksFor result parts.old (D.image swap.old) (D.image swap.new) }
    ensures notes { NotesFor result parts.old (F.notes files.old) (F.notes files.new) }
    ensures page_faults { CountsFile result (F.page_faults files.old) (F.page_faults files.new) }
    ensures read_faults { CountsSwap result (D.read_faults swap.old) (D.read_faults swap.new) }
{
    match parts.split_first_mut() {
        None => Filled::Done,
        Some((first, rest)) => match fill(first, files, swap) {
            Filled::Done => fill_all(rest, files, swap),
            Filled::FileFault => Filled::FileFault,
            Filled::SwapFault => Filled::SwapFault,
        },
    }
}

/// Writes the pages of all parts in turn, up to the first fault.
pub(crate) fn write_all<D: SwapDev>(parts: &[Outbound], swap: &mut D) -> Moved
    requires { AreBlocks (D.blocks swap.old) parts.now }
    ensures done { OnDone result (WritesParts parts.now (D.image swap.old) (D.image swap.new)) }
    ensures failed { OnFailed result (SpoilsParts parts.now (D.image swap.old) (D.image swap.new)) }
    ensures swap { WritesSwap D.SwapDev swap.old swap.new }
    ensures write_faults { Counts result (D.write_faults swap.old) (D.write_faults swap.new) }
{
    match parts {
        [] => Moved::Done,
        [first, rest @ ..] => match swap.write(first.block, first.token.bytes()) {
            Moved::Done => write_all(rest, swap),
            Moved::Failed => Moved::Failed,
        },
    }
}
