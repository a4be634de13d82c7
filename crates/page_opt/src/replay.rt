//! Plays a plan on the references and counts its faults. A plan that can't be played has none.
ghost use Rattle.std.specs.Prelude.{◌≡◌, ℕ, ◌+◌, ◌<◌, ◌^◌, List, [], length, false, IfOk, IsSome};
ghost use Rattle.std.specs.BTreeSet.{btree_set_len};
ghost use Rattle.page_opt.specs.Plans.{due as due_of, all_left};
ghost use Rattle.page_opt.specs.Held.{in_set};
ghost use Rattle.page_opt.specs.Replayed.{Tracks, Leaving, Entering, Serving};

use crate::{NoMemory, Victim};
use std::alloc::Global;
use std::collections::BTreeSet;

/// A plan in its midst: the pages in the cache, the victims to come, and the faults so far.
#[derive(Drop)]
pub(crate) struct Replay<'a> {
    cache: BTreeSet<u32>,
    victims: &'a [Victim],
    faults: u32,
}

impl<'a> Replay<'a> {
    /// A plan before the first reference.
    pub(crate) fn new(alloc: Global, victims: &'a [Victim]) -> Replay<'a>
        ensures cache { Tracks [] result.cache }
        ensures victims { result.victims.now ≡ victims.now }
        ensures faults { result.faults ≡ 0 }
    {
        Replay {
            cache: BTreeSet::new(alloc),
            victims,
            faults: 0,
        }
    }

    /// Serves a reference; false where the victims are no plan.
    pub(crate) fn serve(&mut self, frames: u32, at: u32, page: u32) -> Result<bool, NoMemory>
        requires { self.old.faults + 1 < 2 ^ 32 }
        ensures { IfOk result (λ ok. (cache : List ℕ) → Tracks cache self.old.cache → Serving frames at page cache self.old self.new ok) }
    {
        let victim = due(at, self.victims);
        if self.cache.contains(&page) {
            return Ok(victim.is_none());
        }
        if !self.leave(victim) {
            return Ok(false);
        }
        self.enter(frames, page)
    }

    /// Lets the next victim leave, if one is due; false where it isn't in the cache.
    fn leave(&mut self, victim: Option<u32>) -> bool
        requires { IsSome victim → 0 < length self.old.victims.now }
        ensures { Leaving victim self.old self.new result }
    {
        let Some(victim) = victim else { return true };
        if !self.cache.remove(&victim) {
            return false;
        }
        self.victims = &self.victims[1..];
        true
    }

    /// Lets a page enter; false where there is no room.
    fn enter(&mut self, frames: u32, page: u32) -> Result<bool, NoMemory>
        requires { self.old.faults + 1 < 2 ^ 32 }
        ensures { IfOk result (Entering frames page self.old self.new) }
    {
        if self.cache.len() >= frames as usize {
            return Ok(false);
        }
        self.cache.insert(page)?;
        self.faults += 1;
        Ok(true)
    }

    /// The faults, where no victim is left over.
    pub(crate) fn faults(&self) -> Option<u32>
        ensures { result ≡ all_left self.now.victims.now self.now.faults }
    {
        if self.victims.is_empty() {
            Some(self.faults)
        } else {
            None
        }
    }
}

/// The page that is to leave at a reference, where there is one.
fn due(at: u32, victims: &[Victim]) -> Option<u32>
    ensures { result ≡ due_of at victims.now }
{
    let victim = victims.first()?;
    if victim.at == at {
        Some(victim.page)
    } else {
        None
    }
}
