//! The trait of a swap device: blocks of 512 bytes, two to a page. What a failed call leaves is told by its contract.
ghost use Rattle.std.specs.Prelude.{◌≡◌, ℕ, ◌+◌, ◌*◌, ◌%◌, ◌<◌, ◌≤◌, Option, Some, length};
ghost use Rattle.io_edge.specs.Count.{Counts, OnDone, OnFailed};
ghost use Rattle.io_edge.specs.SwapImage.{bytes_told, HoldsPage, ReadsPage, WritesPage, SpoilsPage};
ghost use Rattle.io_edge.specs.SwapRuns.{WritesSomePages, moved_of};
ghost use Rattle.vm_facts.specs.SwapImages.{SwapImage};

use crate::Moved;

/// A device of blocks of 512 bytes. A call moves the two blocks of one page, of which the first has an
/// even number (this project's profile). Failed reads and failed writes are counted, each in a count
/// that never falls. It is kept as a `u64`, which stands still at its last value.
pub trait SwapDev {
    /// All bytes of the device, block after block, and what it has noted of the calls that were made of it; where they are told.
    /// Code over any device knows what is noted by the clauses of the calls alone: a call notes a request for each page that it moves,
    /// also for one at which it fails, and nothing else does.
    ghost image: { Self → Option SwapImage };

    /// How many blocks the device has.
    ghost blocks: { Self → ℕ };

    /// How often a `read` has failed.
    ghost read_faults: { Self → ℕ };

    /// How often a `write` has failed.
    ghost write_faults: { Self → ℕ };

    /// Calls lead from the first state to the second.
    ghost leads: { Self → Self → Type 0 };

    /// How many blocks the device has. It never changes.
    fn blocks(&self) -> u32
        ensures { result ≡ blocks self.now };

    /// Reads the two blocks from `block` on. Failed comes only where `read_faults` rose, and leaves
    /// any bytes in the buffer.
    fn read(&mut self, block: u32, buf: &mut [u8; 1024]) -> Moved
        requires even { block % 2 ≡ 0 }
        requires inside { block + 2 ≤ blocks self.old }
        ensures leads { leads self.old self.new }
        ensures blocks { blocks self.new ≡ blocks self.old }
        ensures image { ReadsPage (image self.old) block (image self.new) }
        ensures bytes { bytes_told (image self.new) ≡ bytes_told (image self.old) }
        ensures done { OnDone result (HoldsPage (bytes_told (image self.old)) block buf.new) }
        ensures read_faults { Counts result (read_faults self.old) (read_faults self.new) }
        ensures write_faults { write_faults self.new ≡ write_faults self.old };

    /// Writes the two blocks from `block` on. Failed comes only where `write_faults` rose; only these
    /// two blocks are unknown then.
    fn write(&mut self, block: u32, bytes: &[u8; 1024]) -> Moved
        requires even { block % 2 ≡ 0 }
        requires inside { block + 2 ≤ blocks self.old }
        ensures leads { leads self.old self.new }
        ensures blocks { blocks self.new ≡ blocks self.old }
        ensures done { OnDone result (WritesPage (image self.old) block bytes.now (image self.new)) }
        ensures failed { OnFailed result (SpoilsPage (image self.old) block (image self.new)) }
        ensures read_faults { read_faults self.new ≡ read_faults self.old }
        ensures write_faults { Counts result (write_faults self.old) (write_faults self.new) };

    /// Writes pages that lie together, the first in the two blocks from `block` on: as many from the first on as the device
    /// writes by one call, at least one. The answer is how many. None is the answer where a write failed, which comes only
    /// where `write_faults` rose: then the pages before one of them are written, that one's two blocks alone are unknown, and
    /// those behind it weren't tried. Each page that is written, and the one that failed, is a request of its own.
    fn write_some(&mut self, block: u32, pages: &[[u8; 1024]]) -> Option<u32>
        requires even { block % 2 ≡ 0 }
        requires some { 0 < length pages.now }
        requires inside { block + 2 * length pages.now ≤ blocks self.old }
        ensures leads { leads self.old self.new }
        ensures blocks { blocks self.new ≡ blocks self.old }
        ensures written { WritesSomePages result (image self.old) block pages.now (image self.new) }
        ensures read_faults { read_faults self.new ≡ read_faults self.old }
        ensures write_faults { Counts (moved_of result) (write_faults self.old) (write_faults self.new) }
    {
        let Some((first, _)) = pages.split_first() else {
            unreachable!()
        };
        match self.write(block, first) {
            Moved::Done => Some(1),
            Moved::Failed => None,
        }
    }

    /// A told image has 512 bytes for each block.
    ghost whole: { (d : Self) (told : SwapImage) → image d ≡ Some told → length told.bytes ≡ 512 * blocks d };

    /// No call leads from a state to itself.
    ghost leads_nowhere: { (d : Self) → leads d d };

    /// One row of calls after another is a row of calls.
    ghost leads_through: { (a b c : Self) → leads a b → leads b c → leads a c };

    /// The number of blocks never changes.
    ghost blocks_stay: { (a b : Self) → leads a b → blocks b ≡ blocks a };

    /// The count of failed reads never falls.
    ghost reads_grow: { (a b : Self) → leads a b → read_faults a ≤ read_faults b };

    /// The count of failed writes never falls.
    ghost writes_grow: { (a b : Self) → leads a b → write_faults a ≤ write_faults b };
}
