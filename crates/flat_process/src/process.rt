//! One process: its number, its registers, and what it holds. It knows others by their numbers alone.
ghost use Rattle.std.specs.Prelude.{◌≡◌, ◌↔◌, ℕ, Bool, true, false, ◌==◌, ◌≤◌, ◌<◌, ◌^◌, length, IsTrue, IfOk, OnOk};
ghost use Rattle.flat_state.specs.Flat.{Holding, Holds, Lends, Zombie, Process as Record, FlatState, is_ready, holds_space};
ghost use Rattle.flat_model.specs.Touched.{touched_in};
ghost use Rattle.user_vax.specs.Program.{run};
ghost use Rattle.user_vax.specs.Instruction.{answer_of, registers_after, writes_of};
ghost use Rattle.flat_state.specs.Space.{puts};
ghost use Rattle.flat_state.specs.Change.{resized, with_results, is_zombie, is_zombie_child, lends_to, without_parent, awake};
ghost use Rattle.flat_model.specs.Calls.{status_of};
ghost use Rattle.flat_model.specs.Instruction.{instruction_in};
ghost use Rattle.flat_process.specs.Holdings.{space_in, holding_of, IsNearStep};
ghost use Rattle.flat_process.specs.Running.{outcome_of, Goes, GoesFor, StopsAfter};

use crate::present::Paged;
use crate::program::Program;
use crate::space::FlatSpace;
use std::alloc::Global;
use std::marker::Model;
use user_step::{DecodeCache, step_cached, step_unless_call};
use user_vax::Stepped;
use vm_facts::{NoMemory, Page, Regs};

/// What a process has.
#[derive(Drop)]
pub enum Held {
    /// A space.
    Space(FlatSpace),
    /// Nothing: it lent the space of this number to the child.
    Lent { sid: u32, child: u32 },
    /// Nothing: it ended with this status.
    Zombie(u32),
}

/// A process of the flat machine. Contracts see it as the definitions do.
#[derive(Drop)]
pub struct Process {
    pid: u32,
    parent: u32,
    regs: Regs,
    held: Held,
    asleep: bool,
}

impl Model for Process {
    ghost use Rattle.flat_state.specs.Flat.{Process as Record};
    ghost use Rattle.flat_process.specs.Holdings.{holding_of};

    ghost Value = { Record };

    ghost view = { λ p. record { pid = p.pid; parent = p.parent; regs = p.regs; holding = holding_of p.held; asleep = p.asleep } };
}

/// R0 and R1.
pub fn with_results(regs: Regs, r0: u32, r1: u32) -> Regs
    ensures { result ≡ with_results regs r0 r1 }
{
    let mut after = regs;
    after.r[0] = r0;
    after.r[1] = r1;
    after
}

// Whether it is a space.
fn is_space(held: &Held) -> bool
    ensures { result ≡ holds_space (holding_of held.now) }
{
    match held {
        Held::Space(_) => true,
        Held::Lent { .. } | Held::Zombie(_) => false,
    }
}

// Whether it is the status of a process that ended.
fn is_zombie(held: &Held) -> bool
    ensures { result ≡ is_zombie (holding_of held.now) }
{
    match held {
        Held::Zombie(_) => true,
        Held::Space(_) | Held::Lent { .. } => false,
    }
}

// Carries an instruction out over a space, unless it makes a call; the answer is whether it was carried out.
#[tactic(auto, using(flat_state::proofs::SpaceLaws::wrote_puts, crate::proofs::Going::tried_done))]
fn carry_out(cache: &mut DecodeCache, regs: &mut Regs, space: &mut FlatSpace) -> bool
    ensures done { (result ≡ true) ↔ (answer_of (instruction_in space.old regs.old) ≡ Stepped.Done) }
    ensures registers { result ≡ true → regs.new ≡ registers_after regs.old (instruction_in space.old regs.old) }
    ensures wrote { space.new ≡ puts space.old (writes_of (instruction_in space.old regs.old)) }
{
    match step_unless_call(cache, regs, space) {
        Stepped::Done => true,
        Stepped::Call(_) => false,
        Stepped::Miss { .. } | Stepped::Below { .. } | Stepped::Signal(_) => false,
    }
}

impl Process {
    /// A process that is awake.
    pub fn new(pid: u32, parent: u32, regs: Regs, space: FlatSpace) -> Process
        ensures { result ≡ record { pid = pid; parent = parent; regs = regs; holding = Holds space; asleep = false } }
    {
        Process {
            pid,
            parent,
            regs,
            held: Held::Space(space),
            asleep: false,
        }
    }

    /// Its number.
    pub fn pid(&self) -> u32
        ensures { result ≡ self.now.pid }
    {
        self.pid
    }

    /// Whether this is its number.
    pub fn is_of(&self, pid: u32) -> bool
        ensures { result ≡ (self.now.pid == pid) }
    {
        self.pid == pid
    }

    /// The number of its parent, 0 where it has none.
    pub fn parent(&self) -> u32
        ensures { result ≡ self.now.parent }
    {
        self.parent
    }

    /// Its registers.
    pub fn regs(&self) -> Regs
        ensures { result ≡ self.now.regs }
    {
        self.regs
    }

    /// Whether it can step.
    pub fn is_ready(&self) -> bool
        ensures { result ≡ is_ready self.now }
    {
        !self.asleep && is_space(&self.held)
    }

    /// Whether it is a zombie child of this process.
    pub fn is_zombie_child(&self, pid: u32) -> bool
        ensures { result ≡ is_zombie_child pid self.now }
    {
        self.parent == pid && is_zombie(&self.held)
    }

    /// Whether it lent its space to this process.
    pub fn lends_to(&self, pid: u32) -> bool
        ensures { result ≡ lends_to pid self.now.holding }
    {
        match &self.held {
            Held::Lent { child, .. } => *child == pid,
            Held::Space(_) | Held::Zombie(_) => false,
        }
    }

    /// The status with which it ended, 0 where it didn't.
    pub fn status(&self) -> u32
        ensures { result ≡ status_of self.now.holding }
    {
        match &self.held {
            Held::Zombie(status) => *status,
            Held::Space(_) | Held::Lent { .. } => 0,
        }
    }

    /// Its space.
    pub fn space(&self) -> &FlatSpace
        requires { IsTrue (holds_space self.now.holding) }
        ensures { result.now ≡ space_in self.now.holding }
    {
        match &self.held {
            Held::Space(space) => space,
            Held::Lent { .. } | Held::Zombie(_) => unreachable!(),
        }
    }

    /// Gives the data and the stack of its space so many pages; those that are added have zeros.
    pub fn resize(&mut self, data_pages: u32, stack_pages: u32) -> Result<(), NoMemory>
        requires holds { IsTrue (holds_space self.old.holding) }
        requires of_data { data_pages ≤ 4096 }
        requires of_stack { stack_pages ≤ 512 }
        ensures { OnOk result (self.new ≡ record self.old { holding = Holds (resized (space_in self.old.holding) data_pages stack_pages) }) }
    {
        match &mut self.held {
            Held::Space(space) => space.resize(data_pages, stack_pages),
            Held::Lent { .. } | Held::Zombie(_) => unreachable!(),
        }
    }

    /// Sets its registers.
    pub fn set_regs(&mut self, regs: Regs)
        ensures { self.new ≡ record self.old { regs = regs } }
    {
        self.regs = regs;
    }

    /// It sleeps.
    pub fn sleep(&mut self)
        ensures { self.new ≡ record self.old { asleep = true } }
    {
        self.asleep = true;
    }

    /// It sleeps no more, where it is this process.
    pub fn wake(&mut self, pid: u32)
        ensures { self.new ≡ awake pid self.old }
    {
        if self.pid == pid {
            self.asleep = false;
        }
    }

    /// It has no parent, where that is this process.
    pub fn drop_parent(&mut self, pid: u32)
        ensures { self.new ≡ without_parent pid self.old }
    {
        if self.parent == pid {
            self.parent = 0;
        }
    }

    /// Puts something in the place of what it has.
    pub fn exchange(&mut self, held: Held) -> Held
        ensures value { holding_of result ≡ self.old.holding }
        ensures after { self.new ≡ record self.old { holding = holding_of held } }
    {
        std::mem::replace(&mut self.held, held)
    }

    /// Runs its next instruction over its space: what it came to, and the registers that it left. The process
    /// keeps those that it had.
    #[tactic(auto, using(flat_state::proofs::SpaceLaws::wrote_puts, crate::proofs::Falling::near_step))]
    pub fn run(&mut self, cache: &mut DecodeCache) -> (Stepped, Regs)
        requires { IsTrue (holds_space self.old.holding) }
        ensures answer { result.0 ≡ answer_of (instruction_in (space_in self.old.holding) self.old.regs) }
        ensures near { IsNearStep result.0 }
        ensures registers { result.1 ≡ registers_after self.old.regs (instruction_in (space_in self.old.holding) self.old.regs) }
        ensures after { self.new ≡ record self.old {
          holding = Holds (puts (space_in self.old.holding) (writes_of (instruction_in (space_in self.old.holding) self.old.regs)));
        } }
    {
        let mut regs = self.regs;
        match &mut self.held {
            Held::Space(space) => {
                let stepped = step_cached(cache, &mut regs, space);
                (stepped, regs)
            }
            Held::Lent { .. } | Held::Zombie(_) => unreachable!(),
        }
    }

    // Its next instruction is carried out, unless it makes a call; the answer is whether it was.
    #[tactic(auto, using(crate::proofs::Going::goes_on))]
    fn go_on(&mut self, cache: &mut DecodeCache) -> bool
        requires { IsTrue (holds_space self.old.holding) }
        ensures goes { result ≡ true → Goes self.old self.new }
        ensures stops { result ≡ false → answer_of (outcome_of self.old) ≡ Stepped.Done → ⊥ }
        ensures holds { IsTrue (holds_space self.new.holding) }
    {
        match &mut self.held {
            Held::Space(space) => carry_out(cache, &mut self.regs, space),
            Held::Lent { .. } | Held::Zombie(_) => unreachable!(),
        }
    }

    /// Runs its next instructions over its space, one after another and at most so many, up to one that isn't carried out or
    /// makes a call. The answer is how many ran. Where one didn't, it may have left its writes, and nothing is told of the process.
    pub fn run_on(&mut self, cache: &mut DecodeCache, most: u32) -> u32
        requires { IsTrue (holds_space self.old.holding) }
        ensures few { result ≤ most }
        ensures all { result ≡ most → GoesFor self.old most self.new }
        ensures stops { result < most → StopsAfter self.old result }
    {
        for count in 0..most {
            if !self.go_on(cache) {
                return count;
            }
        }
        most
    }

    /// Runs its next instruction over its space: what it came to, the registers that it left, and the pages that
    /// it and its call touch. The process keeps the registers that it had.
    #[tactic(auto, using(crate::proofs::Falling::near_step))]
    pub fn run_touching(
        &mut self,
        alloc: Global,
        programs: &[Program],
    ) -> Result<(Stepped, Regs, Vec<Page>), NoMemory>
        requires holds { IsTrue (holds_space self.old.holding) }
        requires few { length programs.now < 2 ^ 31 }
        ensures answer { IfOk result (λ ran. ran.0 ≡ answer_of (instruction_in (space_in self.old.holding) self.old.regs)) }
        ensures near { IfOk result (λ ran. IsNearStep ran.0) }
        ensures registers { IfOk result (λ ran. ran.1 ≡ registers_after self.old.regs (instruction_in (space_in self.old.holding) self.old.regs)) }
        ensures after { OnOk result (self.new ≡ record self.old {
          holding = Holds (puts (space_in self.old.holding) (writes_of (instruction_in (space_in self.old.holding) self.old.regs)));
        }) }
        ensures pages { (F : FlatState) → IfOk result (λ ran. ran.2.items ≡ touched_in programs.now F self.old self.old.holding) }
    {
        let mut regs = self.regs;
        match std::mem::replace(&mut self.held, Held::Zombie(0)) {
            Held::Space(space) => {
                let mut paged = Paged::new(alloc, space);
                let stepped = paged.step(alloc, programs, &mut regs)?;
                let (space, pages) = paged.parts();
                self.held = Held::Space(space);
                Ok((stepped, regs, pages))
            }
            Held::Lent { .. } | Held::Zombie(_) => unreachable!(),
        }
    }
}
