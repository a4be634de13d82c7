//! Files in memory: some never fail, and some fail at numbered calls.
ghost use Rattle.std.specs.Prelude.{◌≡◌, ◌+◌, ◌^◌, ◌<◌, ◌≤◌, ◌↔◌, Some, map, refl, length, position, bytes_eq, string_bytes, vec_len};
ghost use Rattle.std.proofs.Common.{◌∙◌, ap, le_refl, le_trans, lit≤};
ghost use Rattle.io_edge.specs.Calls.{KeepsFiles};
ghost use Rattle.io_edge.specs.Count.{Counts, OnDone};
ghost use Rattle.io_edge.specs.FileHolding.{AnswersName, CountsFind, HasRange, HoldsRange, IsKnown, named_file, file_range, found_in};
ghost use Rattle.io_edge.specs.Known.{known_of_same, found_apart};
ghost use Rattle.io_edge.specs.Octets.{AreOctetFiles};
ghost use Rattle.io_edge.specs.Plan.{FailsNext, IsNewPlan, LaterCalls, NextCall};
ghost use Rattle.io_edge.specs.PlanLaws.{later_itself, later_through};
ghost use Rattle.io_edge.specs.FileRequests.{FileFind, FileRead, after_request, no_notes};

use crate::count::{FaultPlan, raised};
use crate::{Files, Found, Moved, are_octet_files};

// The first file of this name.
fn position_of(files: &[(String, Vec<u8>)], name: &str) -> Option<usize>
    ensures { result ≡ position (λ file. bytes_eq (string_bytes file.0) name.now) files.now }
{
    files.iter().position(|file| file.0.as_str() == name)
}

// Fills the buffer from this place on.
fn copy_range(bytes: &[u8], offset: usize, buf: &mut [u8])
    requires { offset + length buf.old ≤ length bytes.now }
    ensures { buf.new ≡ file_range bytes.now offset (length buf.new) }
{
    let end = offset + buf.len();
    buf.copy_from_slice(&bytes[offset..end]);
}

/// Files in memory that never fail.
#[derive(Drop)]
pub struct SureFiles {
    files: Vec<(String, Vec<u8>)>,
    ghost few: { vec_len files < 2 ^ 32 },
}

impl SureFiles {
    /// These files, each a name and its bytes. Of several with one name the first is found. That their
    /// names and bytes have numbers below 256 is what `are_octet_files` says of them.
    pub fn new(files: Vec<(String, Vec<u8>)>) -> SureFiles
        requires { vec_len files < 2 ^ 32 }
        ensures { ⟦<SureFiles as Files>⟧.holds result ≡ Some (map named_file files.items) }
    {
        SureFiles { files }
    }
}

impl Files for SureFiles {
    ghost holds = { λ f. Some (map named_file f.files.items) };

    ghost known = { λ f name. Some (found_in (map named_file f.files.items) name) };

    ghost notes = { λ _. no_notes };

    ghost open_faults = { λ _. 0 };

    ghost page_faults = { λ _. 0 };

    ghost leads = { λ a b. map named_file b.files.items ≡ map named_file a.files.items };

    fn find(&mut self, name: &str) -> Found {
        match position_of(&self.files, name) {
            Some(at) => Found::Is {
                id: at as u32,
                len: self.files[at].1.len() as u64,
            },
            None => Found::Absent,
        }
    }

    fn read_at(&mut self, id: u32, offset: u64, buf: &mut [u8]) -> Moved {
        copy_range(&self.files[id as usize].1, offset as usize, buf);
        Moved::Done
    }

    ghost leads_nowhere = { λ _. refl };

    ghost leads_through = { λ _ _ _ first then. then ∙ first };

    ghost leads_same = { λ _ _ same. ap Some same };

    ghost known_stays = { λ _ _ same. known_of_same same };

    ghost known_apart = { λ f. found_apart (map named_file f.files.items) };

    ghost open_grows = { λ _ _ _. lit≤ tt };

    ghost page_grows = { λ _ _ _. lit≤ tt };
}

/// Files in memory with calls that are to fail.
#[derive(Drop)]
pub struct MemFiles {
    store: SureFiles,
    plan: FaultPlan,
    open_faults: u64,
    page_faults: u64,
}

impl MemFiles {
    /// These files, each a name and its bytes. Of several with one name the first is found. `fail`
    /// holds the numbers of the calls that are to fail, `find` and `read_at` counted together from 1.
    pub fn new(files: Vec<(String, Vec<u8>)>, fail: Vec<u64>) -> MemFiles
        requires { vec_len files < 2 ^ 32 }
        ensures holds { ⟦<MemFiles as Files>⟧.holds result ≡ Some (map named_file files.items) }
        ensures open_faults { ⟦<MemFiles as Files>⟧.open_faults result ≡ 0 }
        ensures page_faults { ⟦<MemFiles as Files>⟧.page_faults result ≡ 0 }
        ensures plan { IsNewPlan result.plan fail.items }
        ensures octets { AreOctetFiles (map named_file files.items) }
    {
        are_octet_files(&files);
        MemFiles {
            store: SureFiles::new(files),
            plan: FaultPlan::new(fail),
            open_faults: 0,
            page_faults: 0,
        }
    }
}

impl Files for MemFiles {
    ghost holds = { λ f. Some (map named_file f.store.files.items) };

    ghost known = { λ f name. Some (found_in (map named_file f.store.files.items) name) };

    ghost notes = { λ _. no_notes };

    ghost open_faults = { λ f. f.open_faults };

    ghost page_faults = { λ f. f.page_faults };

    ghost leads = { λ a b. (map named_file b.store.files.items ≡ map named_file a.store.files.items) × (a.open_faults ≤ b.open_faults)
        × (a.page_faults ≤ b.page_faults) × LaterCalls a.plan b.plan };

    fn find(&mut self, name: &str) -> Found
        ensures kept { KeepsFiles ⟦<MemFiles as Files>⟧ self.old self.new }
        ensures notes { ⟦<MemFiles as Files>⟧.notes self.new ≡ after_request (FileFind name.now) (⟦<MemFiles as Files>⟧.notes self.old) }
        ensures answer { AnswersName (⟦<MemFiles as Files>⟧.holds self.old) name.now result }
        ensures known { IsKnown (⟦<MemFiles as Files>⟧.known self.new) name.now result }
        ensures open_faults { CountsFind result self.old.open_faults self.new.open_faults }
        ensures page_faults { self.new.page_faults ≡ self.old.page_faults }

        // Just the calls whose numbers are listed fail.
        ensures fails { (result ≡ Found.Failed) ↔ FailsNext self.old.plan }
        ensures plan { NextCall self.old.plan self.new.plan }
    {
        if self.plan.next_fails() {
            self.open_faults = raised(self.open_faults);
            return Found::Failed;
        }
        self.store.find(name)
    }

    fn read_at(&mut self, id: u32, offset: u64, buf: &mut [u8]) -> Moved
        requires { HasRange (⟦<MemFiles as Files>⟧.holds self.old) id offset (length buf.old) }
        ensures kept { KeepsFiles ⟦<MemFiles as Files>⟧ self.old self.new }
        ensures notes { ⟦<MemFiles as Files>⟧.notes self.new ≡ after_request (FileRead id offset (length buf.old)) (⟦<MemFiles as Files>⟧.notes self.old) }
        ensures done { OnDone result (HoldsRange (⟦<MemFiles as Files>⟧.holds self.old) id offset buf.new) }
        ensures open_faults { offset ≡ 0 → Counts result self.old.open_faults self.new.open_faults }
        ensures open_stays { 0 < offset → self.new.open_faults ≡ self.old.open_faults }
        ensures page_faults { 0 < offset → Counts result self.old.page_faults self.new.page_faults }
        ensures page_stays { offset ≡ 0 → self.new.page_faults ≡ self.old.page_faults }

        // Just the calls whose numbers are listed fail.
        ensures fails { (result ≡ Moved.Failed) ↔ FailsNext self.old.plan }
        ensures plan { NextCall self.old.plan self.new.plan }
    {
        if self.plan.next_fails() {
            if offset == 0 {
                self.open_faults = raised(self.open_faults);
            } else {
                self.page_faults = raised(self.page_faults);
            }
            return Moved::Failed;
        }
        self.store.read_at(id, offset, buf)
    }

    ghost leads_nowhere = { λ f. (refl, le_refl f.open_faults, le_refl f.page_faults, later_itself f.plan) };

    ghost leads_through = { λ a b c first then. (
      then.0 ∙ first.0,
      le_trans first.1 then.1,
      le_trans first.2 then.2,
      later_through a.plan b.plan c.plan first.3 then.3,
    ) };

    ghost leads_same = { λ _ _ led. ap Some led.0 };

    ghost known_stays = { λ _ _ led. known_of_same led.0 };

    ghost known_apart = { λ f. found_apart (map named_file f.store.files.items) };

    ghost open_grows = { λ _ _ led. led.1 };

    ghost page_grows = { λ _ _ led. led.2 };
}
