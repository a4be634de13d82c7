//! Gaps among places, as bits of words, with a tree of how many bits each word has.
ghost use Rattle.std.specs.Prelude.{◌≡◌, ℕ, ◌+◌, ◌-◌, ◌*◌, ◌<◌, ◌≤◌, ◌^◌, length, take, slice_set, slice_index_or, IfOk};
ghost use Rattle.stack_dist.specs.Tree.{total, AreZeros, raised};
ghost use Rattle.stack_dist.specs.Gaps.{bits};

use super::NoMemory;
use super::tree::CountTree;
use std::alloc::Global;
use std::marker::Model;

/// Gaps among places. Contracts see a list that has 1 at each gap, and 0 at each other place.
#[derive(Drop)]
pub struct Gaps {
    /// Bit k % 64 of word k / 64 is place k's.
    words: Vec<u64>,
    /// How many bits of each word are set.
    counts: CountTree,
}

impl Model for Gaps {
    ghost use Rattle.std.specs.Prelude.{ℕ, List};
    ghost use Rattle.stack_dist.specs.Gaps.{places_of, AreGaps};

    ghost Value = { List ℕ };

    ghost view = { places_of };

    ghost invariant = { AreGaps };
}

impl Gaps {
    /// No gaps among at least so many places.
    pub fn new(alloc: Global, least: usize) -> Result<Gaps, NoMemory>
        requires { least ≤ 4_000_000 }
        ensures { IfOk result (AreZeros least (2 * least + 256)) }
    {
        let counts = CountTree::new(alloc, least / 64 + 1)?;
        let words = vec![in alloc; 0; counts.len()]?;
        Ok(Gaps { words, counts })
    }

    /// How many places there are.
    pub fn len(&self) -> usize
        ensures { result ≡ length self.now }
    {
        64 * self.words.len()
    }

    /// Leaves a gap at a place where there is none, and answers how many there are before it.
    pub fn leave(&mut self, at: usize) -> u32
        requires within { at < length self.old }
        requires none { slice_index_or self.old at 0 ≡ 0 }
        requires fits { total self.old < 2 ^ 32 - 1 }
        ensures before { result ≡ total (take at self.old) }
        ensures gap { self.new ≡ raised self.old at }
    {
        let word = self.words[at / 64];
        self.words[at / 64] = with_bit(word, at % 64);
        self.counts.raise(at / 64) + bits_below(word, at % 64)
    }
}

/// A word with one more bit.
fn with_bit(word: u64, at: usize) -> u64
    requires { at < 64 }
    ensures { bits 64 result ≡ slice_set (bits 64 word) at 1 }
{
    word | 1 << at
}

/// How many bits of a word are set below one.
fn bits_below(word: u64, at: usize) -> u32
    requires { at < 64 }
    ensures { result ≡ total (take at (bits 64 word)) }
{
    (word & ((1 << at) - 1)).count_ones()
}
