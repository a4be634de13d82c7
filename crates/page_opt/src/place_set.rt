//! A set of places, as bits, with bits above them that say which words have any.
ghost use Rattle.std.specs.Prelude.{◌≡◌, ℕ, ◌+◌, ◌*◌, ◌/◌, ◌^◌, ◌<◌, ◌≤◌, length, true, false, ◌==◌, slice_index_or, IfOk};
ghost use Rattle.page_opt.specs.Cache.{Changed};
ghost use Rattle.page_opt.specs.PlaceSet.{capacity, has_place, bit_of, AreSummaries, BitChanged, LeafChanged, IsLast, IsLastLeaf, AreLevels};

use crate::NoMemory;
use std::alloc::Global;
use std::marker::Model;

/// A set of places below a bound.
#[derive(Drop)]
pub(crate) struct PlaceSet {
    /// Bit k % 64 of word k / 64 is node k's. The nodes from `first` on are the places, and the bit of a
    /// node below says whether the word with its number has any bit.
    words: Vec<u64>,
    /// 64 to the power of `height`, which is at least 1.
    first: usize,
    height: u32,
}

impl Model for PlaceSet {
    ghost use Rattle.page_opt.specs.PlaceSet.{Bits, bits_of, IsTree};

    ghost Value = { Bits };

    ghost view = { bits_of };

    ghost invariant = { IsTree };
}

impl PlaceSet {
    /// An empty set, with room for the places below a bound.
    pub(crate) fn new(alloc: Global, bound: usize) -> Result<PlaceSet, NoMemory>
        requires { bound ≤ 4000000 }
        ensures room { IfOk result (λ places. bound ≤ capacity places) }
        ensures empty { IfOk result (λ places. (k : ℕ) → has_place places k ≡ false) }
    {
        let mut first = 64;
        let mut height = 1;
        while first <= bound {
            first *= 64;
            height += 1;
        }
        let words = vec![in alloc; 0; (first + bound) / 64 + 1]?;
        Ok(PlaceSet {
            words,
            first,
            height,
        })
    }

    /// Puts a place in.
    pub(crate) fn insert(&mut self, place: usize)
        requires { place < capacity self.old }
        ensures room { capacity self.new ≡ capacity self.old }
        ensures changes { Changed (has_place self.old) (has_place self.new) place true }
    {
        mark(&mut self.words, self.first, self.first + place);
    }

    /// Takes a place out, and answers whether it was there.
    pub(crate) fn remove(&mut self, place: usize) -> bool
        requires { place < capacity self.old }
        ensures room { capacity self.new ≡ capacity self.old }
        ensures was { result ≡ has_place self.old place }
        ensures changes { Changed (has_place self.old) (has_place self.new) place false }
    {
        let leaf = self.first + place;
        if !has_bit(&self.words, leaf) {
            return false;
        }
        unmark(&mut self.words, self.first, leaf);
        true
    }

    /// The last place of the set, if there is one.
    pub(crate) fn last(&self) -> Option<usize>
        ensures { IsLast self.now result }
    {
        if self.words[1] == 0 {
            return None;
        }
        Some(last_leaf(&self.words, self.first, self.height) - self.first)
    }
}

/// Whether a node's bit is set.
fn has_bit(words: &[u64], node: usize) -> bool
    requires { node / 64 < length words.now }
    ensures { result ≡ (bit_of words.now node == 1) }
{
    words[node / 64] >> (node % 64) & 1 == 1
}

/// Sets a node's bit, and answers whether its word had none.
fn set_bit(words: &mut [u64], node: usize) -> bool
    requires { node / 64 < length words.old }
    ensures empty { result ≡ (slice_index_or words.old (node / 64) 0 == 0) }
    ensures changed { BitChanged words.old words.new node 1 }
{
    let word = words[node / 64];
    words[node / 64] = word | 1 << (node % 64);
    word == 0
}

/// Clears a node's bit, and answers whether its word has none now.
fn clear_bit(words: &mut [u64], node: usize) -> bool
    requires { node / 64 < length words.old }
    ensures empty { result ≡ (slice_index_or words.new (node / 64) 0 == 0) }
    ensures fewer { slice_index_or words.new (node / 64) 0 ≤ slice_index_or words.old (node / 64) 0 }
    ensures changed { BitChanged words.old words.new node 0 }
{
    let word = words[node / 64] & !(1 << (node % 64));
    words[node / 64] = word;
    word == 0
}

/// Sets a place's bit, and those above it up to a word that had one.
fn mark(words: &mut [u64], first: usize, leaf: usize)
    requires leaf { first ≤ leaf }
    requires within { leaf / 64 < length words.old }
    requires room { 64 * length words.old ≤ 2 * first }
    requires summaries { AreSummaries first words.old }
    ensures summaries { AreSummaries first words.new }
    ensures changed { LeafChanged first words.old words.new leaf 1 }
{
    let mut node = leaf;
    while node > 1 {
        if !set_bit(words, node) {
            return;
        }
        node /= 64;
    }
}

/// Clears a place's bit, and those above it up to a word that has another.
fn unmark(words: &mut [u64], first: usize, leaf: usize)
    requires leaf { first ≤ leaf }
    requires within { leaf / 64 < length words.old }
    requires room { 64 * length words.old ≤ 2 * first }
    requires summaries { AreSummaries first words.old }
    ensures summaries { AreSummaries first words.new }
    ensures changed { LeafChanged first words.old words.new leaf 0 }
{
    let mut node = leaf;
    while node > 1 {
        if !clear_bit(words, node) {
            return;
        }
        node /= 64;
    }
}

/// The last place's node: the walk down takes the last bit of each word.
fn last_leaf(words: &[u64], first: usize, height: u32) -> usize
    requires some { 0 < height }
    requires small { first < 2 ^ 32 }
    requires levels { AreLevels first height }
    requires room { 64 * length words.now ≤ 2 * first }
    requires summaries { AreSummaries first words.now }
    requires top { 0 < slice_index_or words.now 1 0 }
    ensures { IsLastLeaf first words.now result }
{
    let mut node = 1;
    let mut level = height;
    while level > 0 {
        node = 64 * node + words[node].ilog2() as usize;
        level -= 1;
    }
    node
}
