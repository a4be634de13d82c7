//! How few page faults could any replacement have had? Belady's optimum, with a certificate.
//!
//! A list of references to pages is served by a cache of so many frames, which begins empty. A plan says
//! which page leaves at which reference. `least_faults` gives a plan with the fewest faults, by Belady's
//! rule: the victim is the page that is used again last or never. `check_plan` counts the faults of any
//! plan, so that an answer can be checked without trust in the rule. Each reference is counted by itself.
#![tactic(auto)]

ghost use Rattle.std.specs.Prelude.{◌≡◌, ℕ, ◌+◌, ◌<◌, ◌≤◌, List, length, drop, slice_index, Some, IsSome, IfOk, OnOk};
ghost use Rattle.page_opt.specs.declared.Victim.{Victim as VictimOf};
ghost use Rattle.page_opt.specs.Plans.{IsPlan, Rises, plan_faults};
ghost use Rattle.page_opt.specs.Furthest.{furthest_victims};
ghost use Rattle.page_opt.specs.Cache.{next_at, AreNextUses};
ghost use Rattle.page_opt.specs.Held.{IsWithin, HasPages, HasRoom, Stands};

mod next_use;
mod place_set;
mod replay;
mod resident;

pub use next_use::next_uses;
use replay::Replay;
use resident::Resident;
use std::alloc::Global;
pub use vm_facts::NoMemory;

/// A page that leaves the cache.
#[derive(Clone, Copy, Debug, PartialEq, Eq)]
pub struct Victim {
    /// The number of the reference at which it leaves; the first reference is 1.
    pub at: u32,
    /// The page.
    pub page: u32,
}

/// A plan of replacement, and how many faults it has.
#[derive(Debug, Drop)]
pub struct Plan {
    /// The number of faults.
    pub faults: u32,
    /// The pages that leave, in the order of their references.
    pub victims: Vec<Victim>,
}

/// The fewest faults that any plan has, and a plan that has them: the victim of a fault, where there is no
/// room, is the page that is used again last or never, and of those that are never used again the lowest
/// (Belady). Takes memory in proportion to the references; the one error is that there is none left.
pub fn least_faults(alloc: Global, refs: &[u32], frames: u32) -> Result<Plan, NoMemory>
    requires frames { 1 ≤ frames }
    requires small { length refs.now ≤ 4000000 }
    ensures plan { IfOk result (λ plan. IsPlan refs.now frames plan.victims.items) }
    ensures faults { IfOk result (λ plan. plan_faults refs.now frames plan.victims.items ≡ Some plan.faults) }
    ensures least { IfOk result (λ plan. (victims : List VictimOf) (m : ℕ) → plan_faults refs.now frames victims ≡ Some m → plan.faults ≤ m) }
    ensures furthest { IfOk result (λ plan. plan.victims.items ≡ furthest_victims refs.now frames) }
{
    let next = next_uses(alloc, refs)?;
    least_faults_by_uses(alloc, refs, next.as_slice(), frames)
}

/// The same of references whose next uses are known, as `next_uses` finds them: those who ask for several numbers of frames
/// find them once.
pub fn least_faults_by_uses(
    alloc: Global,
    refs: &[u32],
    next: &[Option<u32>],
    frames: u32,
) -> Result<Plan, NoMemory>
    requires frames { 1 ≤ frames }
    requires small { length refs.now ≤ 4000000 }
    requires next { AreNextUses refs.now next.now }
    ensures plan { IfOk result (λ plan. IsPlan refs.now frames plan.victims.items) }
    ensures faults { IfOk result (λ plan. plan_faults refs.now frames plan.victims.items ≡ Some plan.faults) }
    ensures least { IfOk result (λ plan. (victims : List VictimOf) (m : ℕ) → plan_faults refs.now frames victims ≡ Some m → plan.faults ≤ m) }
    ensures furthest { IfOk result (λ plan. plan.victims.items ≡ furthest_victims refs.now frames) }
{
    let mut resident = Resident::new(alloc, refs.len())?;
    let mut plan = Plan {
        faults: 0,
        victims: Vec::new(alloc),
    };
    for (i, next) in next.iter().enumerate() {
        serve(&mut resident, &mut plan, refs, i, *next, frames)?;
    }
    Ok(plan)
}

/// Serves a reference: at a fault without room the furthest page leaves.
fn serve(
    resident: &mut Resident,
    plan: &mut Plan,
    refs: &[u32],
    i: usize,
    next: Option<u32>,
    frames: u32,
) -> Result<(), NoMemory>
    requires frames { 1 ≤ frames }
    requires small { length refs.now ≤ 4000000 }
    requires within { i < length refs.now }
    requires next { next ≡ next_at (i + 1) (slice_index refs.now i) (drop (i + 1) refs.now) }
    requires stands { Stands refs.now frames i resident.old plan.old.victims.items plan.old.faults }
    ensures { OnOk result (Stands refs.now frames (i + 1) resident.new plan.new.victims.items plan.new.faults) }
{
    if resident.arrive(i as u32) {
        return resident.put(refs[i], next);
    }
    plan.faults += 1;
    make_room(resident, &mut plan.victims, refs, i, frames)?;
    resident.put(refs[i], next)
}

/// Lets a page leave, where there is no room.
fn make_room(
    resident: &mut Resident,
    victims: &mut Vec<Victim>,
    refs: &[u32],
    i: usize,
    frames: u32,
) -> Result<(), NoMemory>
    requires frames { 1 ≤ frames }
    requires small { length refs.now ≤ 4000000 }
    requires within { i < length refs.now }
    requires places { IsWithin refs.now resident.old }
    requires some { frames ≤ resident.old.used → HasPages resident.old }
    ensures { OnOk result (HasRoom refs.now frames i resident.old resident.new victims.old.items victims.new.items) }
{
    if resident.take_frame(frames) {
        return Ok(());
    }
    let page = resident.evict(refs);
    let at = i as u32 + 1;
    victims.push(Victim { at, page })?;
    Ok(())
}

/// The faults of a plan, and none exactly where the victims are no plan. In a plan a reference to a page in
/// the cache has no victim. At any other, the victim, if there is one, is in the cache and leaves; there is
/// then a free frame, and the page enters. A page may leave though a frame is free.
pub fn check_plan(
    alloc: Global,
    refs: &[u32],
    frames: u32,
    victims: &[Victim],
) -> Result<Option<u32>, NoMemory>
    requires frames { 1 ≤ frames }
    requires small { length refs.now ≤ 4000000 }
    ensures faults { IfOk result (λ faults. faults ≡ plan_faults refs.now frames victims.now) }
    ensures rising { IfOk result (λ faults. IsSome faults → Rises 1 victims.now (length refs.now + 1)) }
{
    let mut replay = Replay::new(alloc, victims);
    for (i, page) in refs.iter().enumerate() {
        let served = replay.serve(frames, i as u32 + 1, *page)?;
        if !served {
            return Ok(None);
        }
    }
    Ok(replay.faults())
}
