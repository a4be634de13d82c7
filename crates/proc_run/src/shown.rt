//! The memory of a process, of which some pages alone are shown. An access to another page misses. Writes reach the
//! frames, so a trial here must be of an instruction that writes nothing.
ghost use Rattle.std.specs.Prelude.{◌≡◌};
ghost use Rattle.flat_model.specs.Shown.{is_shown};
ghost use Rattle.machine_state.specs.UserMemory.{page_in};

use flat_state::is_among;
use machine_state::SpaceMemory;
use vm_facts::{ByteRead, MayWrite, Memory, Page};

/// The memory of a process; an access to another page than these misses.
#[derive(Drop)]
pub struct Shown<'m, 'p> {
    pub memory: SpaceMemory<'m>,
    pub pages: &'p [Page],
}

impl Shown<'_, '_> {
    // Whether an address is in one of the pages, or in none at all.
    fn shows(&self, address: u32) -> bool
        ensures { result ≡ is_shown self.now.pages.now (page_in self.now.memory.machine.now.kernel.place self.now.memory.layout.sid address) }
    {
        match self.memory.page_of(address) {
            Some(page) => is_among(page, self.pages),
            None => true,
        }
    }
}

impl Memory for Shown<'_, '_> {
    ghost use Rattle.proc_run.specs.Shown.{shown_in, WroteShown};

    ghost answers = { λ s. shown_in s.memory.machine.now.kernel s.memory.layout.sid s.pages.now };

    ghost wrote = { λ s ws t. WroteShown s.memory.machine s.memory.layout s.pages.now ws t.memory.machine t.memory.layout t.pages.now };

    fn read(&self, address: u32) -> ByteRead {
        if self.shows(address) {
            self.memory.read(address)
        } else {
            ByteRead::Miss
        }
    }

    fn may_write(&self, address: u32) -> MayWrite {
        match self.memory.may_write(address) {
            MayWrite::May if !self.shows(address) => MayWrite::Miss,
            answer => answer,
        }
    }

    fn write(&mut self, address: u32, byte: u8) {
        self.memory.write(address, byte);
    }

    fn ahead(&self, address: u32) -> &[u8] {
        if self.shows(address) {
            self.memory.bytes_from(address)
        } else {
            &[]
        }
    }

    ghost use Rattle.proc_run.specs.ShownLaws.{shown_none, shown_more, shown_after};

    ghost wrote_none = { λ s. shown_none s.memory.machine s.memory.layout s.pages.now };

    ghost wrote_more = { λ s t u xs ys. shown_more s.memory.machine t.memory.machine u.memory.machine s.memory.layout t.memory.layout u.memory.layout
        s.pages.now t.pages.now u.pages.now xs ys };

    ghost wrote_answers = { λ s t ws. shown_after s.memory.machine t.memory.machine s.memory.layout t.memory.layout s.pages.now t.pages.now ws };
}
