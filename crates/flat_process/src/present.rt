//! A space of which only some pages are present. An instruction is tried in it, and the page that it misses is told,
//! so its pages become known.
ghost use Rattle.std.specs.Prelude.{◌≡◌, ◌^◌, ◌<◌, ◌++◌, ◌∷◌, [], length, Some, Result, IfOk, OnOk};
ghost use Rattle.vm_facts.specs.declared.page.Page.{Page as PageName};
ghost use Rattle.flat_state.specs.Space.{Space, answers_of, puts};
ghost use Rattle.flat_state.specs.Flat.{Process as Record, FlatState};
ghost use Rattle.user_vax.specs.Effects.{Effect};
ghost use Rattle.user_vax.specs.declared.refused.Refused.{Refused as Outcome};
ghost use Rattle.user_vax.specs.Program.{accesses};
ghost use Rattle.user_vax.specs.Instruction.{instruction, answer_of, registers_after, writes_of};
ghost use Rattle.flat_model.specs.Instruction.{instruction_in};
ghost use Rattle.flat_model.specs.Calls.{reply_of};
ghost use Rattle.flat_model.specs.Touched.{page_of_access, accesses_after, step_accesses};
ghost use Rattle.flat_model.specs.Shown.{is_shown, shown};
ghost use Rattle.flat_process.specs.Present.{present_none, present_more, present_after, WrotePresent, access_of, pages_of, gathered};

use crate::calling::read_by_call;
use crate::program::Program;
use crate::space::FlatSpace;
use flat_model::SystemCall;
use flat_state::is_among;
use std::alloc::Global;
use user_step::step;
use user_vax::{Refused, Stepped};
use vm_facts::{ByteRead, MayWrite, Memory, NoMemory, Page, Regs};

/// A space and those of its pages that are present.
#[derive(Drop)]
pub struct Paged {
    space: FlatSpace,
    pages: Vec<Page>,
}

// Whether there is no page, or it is one of these.
fn is_present(pages: &[Page], page: Option<Page>) -> bool
    ensures { result ≡ is_shown pages.now page }
{
    match page {
        None => true,
        Some(page) => is_among(page, pages),
    }
}

impl Memory for Paged {
    ghost answers = { λ m. shown m.space m.pages.items };

    ghost wrote = { λ m writes n. WrotePresent m.pages.items m.space writes n.pages.items n.space };

    fn read(&self, address: u32) -> ByteRead {
        if is_present(self.pages.as_slice(), self.space.page_read(address)) {
            self.space.read(address)
        } else {
            ByteRead::Miss
        }
    }

    fn may_write(&self, address: u32) -> MayWrite {
        if is_present(self.pages.as_slice(), self.space.page_tested(address)) {
            self.space.may_write(address)
        } else {
            MayWrite::Miss
        }
    }

    #[tactic(auto, using(crate::proofs::Paging::present_may, crate::proofs::Paging::present_put))]
    fn write(&mut self, address: u32, byte: u8) {
        self.space.write(address, byte);
    }

    ghost wrote_none = { λ m. present_none m.pages.items m.space };

    ghost wrote_more = { λ a b c xs ys. present_more a.pages.items b.pages.items c.pages.items a.space b.space c.space xs ys };

    ghost wrote_answers = { λ a b xs. present_after a.pages.items b.pages.items a.space b.space xs };
}

impl Paged {
    /// A space of which no page is present.
    pub fn new(alloc: Global, space: FlatSpace) -> Paged
        ensures space { result.space ≡ space }
        ensures pages { result.pages.items ≡ [] }
    {
        Paged {
            space,
            pages: Vec::new(alloc),
        }
    }

    /// The space, and the pages that are present.
    pub fn parts(self) -> (FlatSpace, Vec<Page>)
        ensures space { result.0 ≡ self.space }
        ensures pages { result.1.items ≡ self.pages.items }
    {
        let Paged { space, pages } = self;
        (space, pages)
    }

    // The page of a byte that is to be written or read.
    fn page_of(&self, address: u32, write: bool) -> Option<Page>
        ensures { result ≡ page_of_access self.now.space (access_of address write) }
    {
        if write {
            self.space.page_tested(address)
        } else {
            self.space.page_read(address)
        }
    }

    // The page of a byte that missed is present from now on.
    fn bring(&mut self, address: u32, write: bool) -> Result<(), NoMemory>
        ensures space { self.new.space ≡ self.old.space }
        ensures pages { (page : PageName) → page_of_access self.old.space (access_of address write) ≡ Some page
            → OnOk result (self.new.pages.items ≡ self.old.pages.items ++ page ∷ []) }
    {
        match self.page_of(address, write) {
            None => Ok(()),
            Some(page) => match self.pages.push(page) {
                Ok(()) => Ok(()),
                Err(_) => Err(NoMemory),
            },
        }
    }

    // Runs one instruction, where each page that it touches is brought in.
    #[tactic(auto, using(crate::proofs::Paging::missed_answer))]
    fn run(&mut self, regs: &mut Regs) -> Result<Stepped, NoMemory>
        ensures answer { IfOk result (λ stepped. stepped ≡ answer_of (instruction_in self.old.space regs.old)) }
        ensures registers { OnOk result (regs.new ≡ registers_after regs.old (instruction_in self.old.space regs.old)) }
        ensures space { OnOk result (self.new.space ≡ puts self.old.space (writes_of (instruction_in self.old.space regs.old))) }
        ensures pages { OnOk result
            (self.new.pages.items ≡ gathered self.old.pages.items (pages_of self.old.space (accesses (answers_of self.old.space) (instruction regs.old)))) }
    {
        loop {
            match step(regs, self) {
                Stepped::Miss { address, write } => self.bring(address, write)?,
                stepped => return Ok(stepped),
            }
        }
    }

    // Reads what a call reads, where each page that it touches is brought in.
    fn ask(
        &mut self,
        alloc: Global,
        programs: &[Program],
        call: SystemCall,
        regs: Regs,
    ) -> Result<(), NoMemory>
        requires { length programs.now < 2 ^ 31 }
        ensures space { OnOk result (self.new.space ≡ self.old.space) }
        ensures pages { (F : FlatState) (p : Record) (s : Space) → OnOk result (self.new.pages.items
            ≡ gathered self.old.pages.items (pages_of self.old.space (accesses (answers_of self.old.space) (reply_of programs.now F p s call regs)))) }
    {
        loop {
            match read_by_call(alloc, programs, self, call, regs)? {
                Err(Refused::Miss { address, write }) => self.bring(address, write)?,
                Err(Refused::Below { .. }) => return Ok(()),
                Err(Refused::Signal(_)) => return Ok(()),
                Ok(()) => return Ok(()),
            }
        }
    }

    // Reads what the call reads that an instruction made, if it made one.
    fn ask_behind(
        &mut self,
        alloc: Global,
        programs: &[Program],
        stepped: Stepped,
        regs: Regs,
    ) -> Result<(), NoMemory>
        requires { length programs.now < 2 ^ 31 }
        ensures space { OnOk result (self.new.space ≡ self.old.space) }
        ensures pages { (F : FlatState) (p : Record) (s : Space) (r : Result Effect Outcome) → stepped ≡ answer_of r → regs ≡ registers_after p.regs r
            → self.old.space ≡ puts s (writes_of r)
            → OnOk result (self.new.pages.items ≡ gathered self.old.pages.items (pages_of self.old.space (accesses_after programs.now F p s r))) }
    {
        match stepped {
            Stepped::Call(number) => match SystemCall::numbered(number) {
                None => Ok(()),
                Some(call) => self.ask(alloc, programs, call, regs),
            },
            _ => Ok(()),
        }
    }

    /// Runs one instruction, and then reads what its call reads if it makes one, where each page that they touch
    /// is brought in.
    pub fn step(
        &mut self,
        alloc: Global,
        programs: &[Program],
        regs: &mut Regs,
    ) -> Result<Stepped, NoMemory>
        requires { length programs.now < 2 ^ 31 }
        ensures answer { IfOk result (λ stepped. stepped ≡ answer_of (instruction_in self.old.space regs.old)) }
        ensures registers { OnOk result (regs.new ≡ registers_after regs.old (instruction_in self.old.space regs.old)) }
        ensures space { OnOk result (self.new.space ≡ puts self.old.space (writes_of (instruction_in self.old.space regs.old))) }
        ensures pages { (F : FlatState) (p : Record) → p.regs ≡ regs.old
            → OnOk result (self.new.pages.items ≡ gathered self.old.pages.items (pages_of self.old.space (step_accesses programs.now F p self.old.space))) }
    {
        let stepped = self.run(regs)?;
        self.ask_behind(alloc, programs, stepped, *regs)?;
        Ok(stepped)
    }
}
