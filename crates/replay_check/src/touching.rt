//! Follows a run of the flat machine, and lists the pages of each instruction.
ghost use Rattle.std.specs.Prelude.{◌≡◌, ℕ, ◌^◌, ◌<◌, ◌++◌, List, length, None, IfOk, OnOk};
ghost use Rattle.vm_facts.specs.declared.page.Page.{Page as PageName};
ghost use Rattle.vm_facts.specs.declared.entry.Entry.{Entry as Unit};
ghost use Rattle.flat_state.specs.Flat.{Inputs, can_step};
ghost use Rattle.flat_state.specs.Journal.{units_of, units_with, repeated};
ghost use Rattle.flat_model.specs.Step.{flat_step};
ghost use Rattle.flat_model.specs.Touched.{touched};
ghost use Rattle.flat_process.specs.Images.{AreImageFiles, AreNumbers, images_of};
ghost use Rattle.flat_machine.specs.Machine.{state_if};
ghost use Rattle.replay_check.specs.Following.{is_this, IsOnWay};
ghost use Rattle.replay_check.specs.Verdicts.{first_bad, references_of};
ghost use Rattle.vm_facts.specs.declared.entry.Entry.TheVariants.{Ran};

use flat_machine::Machine;
use flat_process::{Flat, Program, load_all};
use std::alloc::Global;
use vm_facts::{Entry, NoMemory, Page};

/// Follows a run of the flat machine, and lists the pages that its instructions touch. The machine stands after
/// the last step that is complete.
#[derive(Drop)]
pub struct Follower<'a> {
    alloc: Global,
    programs: &'a [Program],
    machine: Machine,
    // The process whose pieces found no place, as the last entry said.
    refused: Option<u32>,
    pages: Vec<Page>,
    ghost few: { length programs.now < 2 ^ 31 },
}

// Whether it is this process.
fn is_this(refused: Option<u32>, pid: u32) -> bool
    ensures { result ≡ is_this refused pid }
{
    match refused {
        Some(of) => of == pid,
        None => false,
    }
}

impl<'a> Follower<'a> {
    // A step of a process.
    fn step(&mut self, pid: u32) -> Result<(), NoMemory>
        ensures after { (A : Inputs) → A.images ≡ self.old.programs.now → OnOk result
            (self.new.machine ≡ state_if (can_step self.old.machine pid) self.old.machine (flat_step A self.old.machine pid (is_this self.old.refused pid))) }
        ensures pages { self.new.pages.items ≡ self.old.pages.items }
        ensures refused { self.new.refused ≡ None }
        ensures programs { self.new.programs ≡ self.old.programs }
    {
        let refused = is_this(self.refused, pid);
        self.refused = None;
        match self.machine.step(self.alloc, self.programs, pid, refused) {
            Ok(_) => Ok(()),
            Err(NoMemory) => Err(NoMemory),
        }
    }

    // Pages that were touched.
    fn list(&mut self, pages: &[Page]) -> Result<(), NoMemory>
        ensures pages { OnOk result (self.new.pages.items ≡ self.old.pages.items ++ pages.now) }
        ensures machine { self.new.machine ≡ self.old.machine }
        ensures refused { self.new.refused ≡ self.old.refused }
        ensures programs { self.new.programs ≡ self.old.programs }
    {
        match self.pages.extend_from_slice(pages) {
            Ok(()) => Ok(()),
            Err(_) => Err(NoMemory),
        }
    }

    // A step of a process whose instruction counts.
    fn count(&mut self, pid: u32) -> Result<(), NoMemory>
        ensures after { (A : Inputs) → A.images ≡ self.old.programs.now → OnOk result
            (self.new.machine ≡ state_if (can_step self.old.machine pid) self.old.machine (flat_step A self.old.machine pid (is_this self.old.refused pid))) }
        ensures pages { (A : Inputs) → A.images ≡ self.old.programs.now
            → OnOk result (self.new.pages.items ≡ self.old.pages.items ++ touched A self.old.machine pid) }
        ensures refused { self.new.refused ≡ None }
        ensures programs { self.new.programs ≡ self.old.programs }
    {
        let refused = is_this(self.refused, pid);
        self.refused = None;
        let pages = self
            .machine
            .step_touching(self.alloc, self.programs, pid, refused)?;
        self.list(pages.as_slice())
    }

    fn ran(&mut self, pid: u32, count: u32) -> Result<(), NoMemory>
        ensures way { (A : Inputs) (units : List Unit) (whole : List PageName) → A.images ≡ self.old.programs.now
            → IsOnWay A self.old.machine self.old.refused self.old.pages.items (repeated (Ran pid 1) count units) whole
            → OnOk result (IsOnWay A self.new.machine self.new.refused self.new.pages.items units whole) }
        ensures programs { self.new.programs ≡ self.old.programs }
    {
        for _ in 0..count {
            self.count(pid)?;
        }
        Ok(())
    }

    // Goes on by an entry.
    fn follow(&mut self, entry: &Entry) -> Result<(), NoMemory>
        ensures way { (A : Inputs) (units : List Unit) (whole : List PageName) → A.images ≡ self.old.programs.now
            → IsOnWay A self.old.machine self.old.refused self.old.pages.items (units_with entry.now units) whole
            → OnOk result (IsOnWay A self.new.machine self.new.refused self.new.pages.items units whole) }
        ensures programs { self.new.programs ≡ self.old.programs }
    {
        match entry {
            Entry::Ran { pid, count } => self.ran(*pid, *count),
            Entry::Call { pid, .. } => self.count(*pid),
            Entry::Ended { pid, .. } => self.count(*pid),
            Entry::Grew { pid, .. } => self.step(*pid),
            Entry::Sleeps { pid } => self.step(*pid),
            Entry::Refused { pid } => {
                self.refused = Some(*pid);
                Ok(())
            }
            Entry::Out { .. } => {
                self.refused = None;
                Ok(())
            }
            _ => Ok(()),
        }
    }
}

// The pages of the entries that follow.
fn follow_all(follower: Follower<'_>, entries: &[Entry]) -> Result<Vec<Page>, NoMemory>
    ensures { (A : Inputs) (whole : List PageName) → A.images ≡ follower.entry.programs.now
        → IsOnWay A follower.entry.machine follower.entry.refused follower.entry.pages.items (units_of entries.now) whole
        → IfOk result (λ pages. pages.items ≡ whole) }
{
    let mut follower = follower;
    for entry in entries {
        follower.follow(entry)?;
    }
    Ok(follower.pages)
}

/// The pages that the counted instructions of a run touch, one instruction after another: the run of these entries
/// over these images, whose processes `first` are started.
pub fn references(
    alloc: Global,
    images: &[Flat],
    first: &[u32],
    entries: &[Entry],
) -> Result<Vec<Page>, NoMemory>
    requires images { AreImageFiles images.now }
    requires first { AreNumbers (length images.now) first.now }
    ensures { (A : Inputs) → A.images ≡ images_of images.now → A.first ≡ first.now → first_bad A entries.now ≡ None
        → IfOk result (λ pages. pages.items ≡ references_of A entries.now) }
{
    let programs = load_all(alloc, images)?;
    let machine = Machine::started(alloc, programs.as_slice(), first)?;
    let follower = Follower {
        alloc,
        programs: programs.as_slice(),
        machine,
        refused: None,
        pages: Vec::new(alloc),
    };
    follow_all(follower, entries)
}
