//! The depths at which references find their pages, among pages in the order of their last references.
//!
//! Each reference has a place of its own. Where a page is referenced again, a gap is left at the place of its
//! last reference; so the places since then that are no gaps are the page's depth.
ghost use Rattle.std.specs.Prelude.{◌≡◌, ℕ, ◌+◌, ◌-◌, ◌<◌, ◌≤◌, ◌^◌, length, take, slice_index_or, vec_len, IfOk, OnOk};
ghost use Rattle.std.specs.Option.{ForSome};
ghost use Rattle.stack_dist.specs.Lru.{lru_faults, distinct_pages};
ghost use Rattle.stack_dist.specs.Tree.{total};
ghost use Rattle.stack_dist.specs.Recency.{AreLastPlaces, gapped, filled_before, counted};

use super::NoMemory;
use super::gaps::Gaps;
use std::alloc::Global;
use std::collections::HashMap;

/// For each depth how many references find their page there, from depth 0, the latest page, on: entry d has
/// the hits that room for d + 1 pages adds.
pub fn hits_by_depth(alloc: Global, refs: &[u32]) -> Result<Vec<u32>, NoMemory>
    requires { length refs.now ≤ 4_000_000 }
    ensures depths { IfOk result (λ hits. vec_len hits ≡ distinct_pages refs.now) }
    ensures hits { IfOk result (λ hits. (n : ℕ) → total (take n hits.items) + lru_faults refs.now n ≡ length refs.now) }
{
    let mut hits = Vec::new(alloc);
    let mut gaps = Gaps::new(alloc, refs.len())?;
    let mut place = gaps.len() as u32;
    // In a pass of its own, so that its misses of the cache don't wait for the walks up the tree.
    let last = last_places(alloc, refs, place)?;
    for before in &last {
        let depth = leave_gap(&mut gaps, place, *before);
        place -= 1;
        count(&mut hits, depth)?;
    }
    Ok(hits)
}

/// For each reference the place of the last one before it to its page, where there is one. Places fall from
/// one reference to the next, from an end: before a page's place stand those of later references.
fn last_places(alloc: Global, refs: &[u32], end: u32) -> Result<Vec<Option<u32>>, NoMemory>
    requires { length refs.now ≤ end }
    ensures len { IfOk result (λ last. vec_len last ≡ length refs.now) }
    ensures places { IfOk result (λ last. AreLastPlaces refs.now end (length refs.now) last.items) }
{
    let mut last = HashMap::new(alloc);
    let mut places = Vec::new(alloc);
    let mut place = end;
    for page in refs {
        place -= 1;
        places.push(last.insert(*page, place)?)?;
    }
    Ok(places)
}

/// Leaves a gap at the place of a page's last reference, where it has one, and answers how many places
/// before it, from the latest reference's on, are no gaps.
fn leave_gap(gaps: &mut Gaps, latest: u32, before: Option<u32>) -> Option<u32>
    requires within { ForSome before (λ at. at < length gaps.old) }
    requires order { ForSome before (λ at. latest + total (take at gaps.old) ≤ at) }
    requires none { ForSome before (λ at. slice_index_or gaps.old at 0 ≡ 0) }
    requires fits { total gaps.old < 2 ^ 32 - 1 }
    ensures depth { result ≡ filled_before latest before gaps.old }
    ensures gaps { gaps.new ≡ gapped before gaps.old }
{
    match before {
        Some(at) => {
            let gaps_before = gaps.leave(at as usize);
            Some(at - latest - gaps_before)
        }
        None => None,
    }
}

/// Counts a hit at its depth, or makes room for one more depth.
fn count(hits: &mut Vec<u32>, depth: Option<u32>) -> Result<(), NoMemory>
    requires within { ForSome depth (λ d. d < vec_len hits.old) }
    requires fits { ForSome depth (λ d. slice_index_or hits.old.items d 0 + 1 < 2 ^ 32) }
    ensures { OnOk result (hits.new.items ≡ counted hits.old.items depth) }
{
    match depth {
        Some(depth) => {
            hits[depth as usize] += 1;
            Ok(())
        }
        None => {
            hits.push(0)?;
            Ok(())
        }
    }
}
