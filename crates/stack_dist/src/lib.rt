//! How many page faults LRU has at every size of memory, by Mattson's stack distances.
//!
//! Pages in the order of their last references, the latest first, are a stack. LRU with room for n pages
//! holds the top n of it, so a reference is a fault at exactly those sizes that do not reach as deep as its
//! page lies. Two passes over the references count the depths, in O(log n) for each; sums of these counts
//! are the faults at each size.
#![tactic(auto)]

ghost use Rattle.std.specs.Prelude.{◌≡◌, ℕ, ◌+◌, ◌-◌, ◌<◌, ◌≤◌, length, take, slice_index_or, vec_len, IfOk};
ghost use Rattle.stack_dist.specs.Lru.{lru_faults, distinct_pages};
ghost use Rattle.stack_dist.specs.Tree.{total};

mod gaps;
mod recency;
mod tree;

use recency::hits_by_depth;
use std::alloc::Global;
pub use vm_facts::NoMemory;

/// The page faults of LRU at each size of memory: entry n - 1 has the faults with room for n pages, from 1
/// to as many as there are distinct pages. With room for more there are as many as at the last entry. The
/// references are page numbers, the first one first (LRU as in Belady; the method is Mattson's; the limit of
/// 4,000,000 references is this project's profile).
pub fn curve(alloc: Global, refs: &[u32]) -> Result<Vec<u32>, NoMemory>
    requires { length refs.now ≤ 4_000_000 }
    ensures sizes { IfOk result (λ faults. vec_len faults ≡ distinct_pages refs.now) }
    ensures entries { IfOk result (λ faults. (n : ℕ) → 0 < n → n ≤ distinct_pages refs.now → slice_index_or faults.items (n - 1) 0 ≡ lru_faults refs.now n) }
    ensures past { IfOk result (λ faults. (n : ℕ) → distinct_pages refs.now ≤ n
        → lru_faults refs.now n ≡ lru_faults refs.now (distinct_pages refs.now)) }
{
    let mut counts = hits_by_depth(alloc, refs)?;
    hits_to_faults(&mut counts, refs.len() as u32);
    Ok(counts)
}

/// The page faults of LRU with room for so many pages, however many there are (LRU as in Belady). At most 4,000,000
/// references. The one error is that there is no memory left.
pub fn lru_faults(alloc: Global, refs: &[u32], pages: u32) -> Result<u32, NoMemory>
    requires { length refs.now ≤ 4_000_000 }
    ensures { IfOk result (λ faults. faults ≡ lru_faults refs.now pages) }
{
    let counts = hits_by_depth(alloc, refs)?;
    let hits = hits_above(counts.as_slice(), pages as usize);
    Ok(refs.len() as u32 - hits)
}

/// The hits at the first depths, so many of them or all.
fn hits_above(counts: &[u32], depth: usize) -> u32
    requires { total counts.now ≤ 4_000_000 }
    ensures { result ≡ total (take depth counts.now) }
{
    let mut hits = 0;
    for count in &counts[..depth.min(counts.len())] {
        hits += *count;
    }
    hits
}

/// Turns the hits at each depth into the faults at each size: what the hits up to a depth leave of the
/// references.
fn hits_to_faults(counts: &mut [u32], references: u32)
    requires { total counts.old ≤ references }
    ensures { (k : ℕ) → k < length counts.old → slice_index_or counts.new k 0 + total (take (k + 1) counts.old) ≡ references }
{
    let mut faults = references;
    for count in counts.iter_mut() {
        faults -= *count;
        *count = faults;
    }
}
