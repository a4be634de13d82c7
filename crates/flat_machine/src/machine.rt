//! The flat machine: its processes, and steps of one of them. It has no frame, no swap and no schedule; who steps is
//! the caller's choice.
ghost use Rattle.std.specs.Prelude.{◌≡◌, ℕ, ◌+◌, ◌-◌, ◌*◌, ◌/◌, ◌^◌, ◌<◌, ◌≤◌, ◌==◌, ◌++◌, ◌∷◌, [], List, Bool, true, false, not, length, map, filter, find, position, slice_set, slice_get, slice_index_or, Option, Some, None, IsSome, IfOk, IfSome, OnOk, OnErr, IsTrue, All, Result, is_some};
ghost use Rattle.flat_state.specs.Space.{Space, answers_of, stack_top};
ghost use Rattle.flat_state.specs.Flat.{Holds, Lends, Zombie, Process as Record, FlatState, NamedImage, Inputs, can_step, image_numbered, process_of, holds_space, space_with, start_if, start_state};
ghost use Rattle.flat_state.specs.Change.{changed, resized, apply_change, forked, lent, entered, ended, given_back, returned, orphaned, woken, left, apply_writes, with_process, without_process, child_of, lends_to, is_zombie_child, without_parent, awake};
ghost use Rattle.flat_model.specs.Step.{pages_down_to, data_pages_of, step_of, replied_step, flat_step};
ghost use Rattle.user_vax.specs.Effects.{Effect};
ghost use Rattle.user_vax.specs.declared.refused.Refused.{Refused};
ghost use Rattle.user_vax.specs.Instruction.{writes_of, answer_of, registers_after};
ghost use Rattle.flat_model.specs.Instruction.{instruction_in};
ghost use Rattle.flat_model.specs.Touched.{touched_in, touched};
ghost use Rattle.flat_process.specs.Images.{CanChange, CanReply};
ghost use Rattle.flat_machine.specs.Machine.{IsPlace, process_at, space_at, IsBehind, step_by, entries_of, state_if, entries_if, RunsFor, RunsNoMore};
ghost use Rattle.flat_process.specs.Holdings.{space_in, holding_of, IsNear, IsNearStep};
ghost use Rattle.flat_process.specs.Running.{GoesFor, StopsAfter};

use crate::deed::{Deed, Did};
use flat_model::{Arguments, Reply, SystemCall, WRITE_LIMIT, start_page, start_regs};
use flat_process::{
    FlatSpace, Held, Process, Program, program_at, refused_reply, replied, reply, with_results,
};
use flat_state::{Change, PAGE, STACK_TOP};
use std::alloc::Global;
use std::marker::Model;
use user_step::DecodeCache;
use user_vax::Stepped;
use vm_facts::{Bytes, NoMemory, Page, Regs};

/// The flat machine. Contracts see its processes by rising pid, and the numbers of the next process and the
/// next space.
#[derive(Drop)]
pub struct Machine {
    cache: DecodeCache,
    list: Vec<Process>,
    next_pid: u32,
    next_sid: u32,
}

impl Model for Machine {
    ghost use Rattle.flat_state.specs.Flat.{FlatState};

    ghost Value = { FlatState };

    ghost view = { λ m. record { processes = m.list.items; next_pid = m.next_pid; next_sid = m.next_sid } };
}

// The next number; want of memory, where there is none.
fn next(number: u32) -> Result<u32, NoMemory>
    ensures next { IfOk result (λ n. n ≡ number + 1) }
    ensures none { OnErr result (number + 1 ≡ 2 ^ 32) }
{
    match number.checked_add(1) {
        Some(next) => Ok(next),
        None => Err(NoMemory),
    }
}

// The space with this number in which an image starts with this stack page 0.
fn space_with(
    alloc: Global,
    programs: &[Program],
    sid: u32,
    image: u32,
    top: &Bytes,
) -> Result<FlatSpace, NoMemory>
    requires image { IsSome (image_numbered programs.now image) }
    requires top { length top.now ≡ 1024 }
    ensures { IfOk result (λ s. (named : NamedImage) → image_numbered programs.now image ≡ Some named → s ≡ space_with sid image named.image top.now) }
{
    let program = program_at(programs, image);
    let Ok(stack) = Vec::from_slice(alloc, top.as_slice()) else {
        return Err(NoMemory);
    };
    FlatSpace::new(alloc, sid, image, program.text(), program.data(), stack)
}

// A child that goes on from its parent's registers.
fn child_of(parent: u32, regs: Regs, child: u32, space: FlatSpace) -> Process
    ensures { (p : Record) → p.pid ≡ parent → p.regs ≡ regs → result ≡ child_of p child space }
{
    Process::new(child, parent, with_results(regs, parent, 1), space)
}

fn drop_pid(list: &mut Vec<Process>, pid: u32)
    ensures { list.new.items ≡ filter (λ q. not (q.pid == pid)) list.old.items }
{
    list.retain(|process| !process.is_of(pid));
}

fn drop_zombies(list: &mut Vec<Process>, pid: u32)
    ensures { list.new.items ≡ filter (λ q. not (is_zombie_child pid q)) list.old.items }
{
    list.retain(|process| !process.is_zombie_child(pid));
}

fn wake_all(list: &mut Vec<Process>, pid: u32)
    ensures { list.new.items ≡ map (awake pid) list.old.items }
{
    for place in 0..list.len() {
        list[place].wake(pid);
    }
}

fn drop_parents(list: &mut Vec<Process>, pid: u32)
    ensures { list.new.items ≡ map (without_parent pid) list.old.items }
{
    for place in 0..list.len() {
        list[place].drop_parent(pid);
    }
}

impl Machine {
    // One more process, which is the last.
    fn add(&mut self, process: Process) -> Result<(), NoMemory>
        ensures { OnOk result (self.new ≡ record self.old { processes = self.old.processes ++ process ∷ []; next_pid = self.old.next_pid + 1 }) }
    {
        let number = next(self.next_pid)?;
        if self.list.push(process).is_err() {
            return Err(NoMemory);
        }
        self.next_pid = number;
        Ok(())
    }

    // Every process of this number goes.
    fn remove(&mut self, pid: u32)
        ensures { self.new ≡ without_process self.old pid }
    {
        drop_pid(&mut self.list, pid);
    }

    // The process of this number sleeps no more.
    fn wake(&mut self, pid: u32)
        ensures { self.new ≡ woken self.old pid }
    {
        wake_all(&mut self.list, pid);
    }

    fn drop_zombies(&mut self, pid: u32)
        ensures { self.new ≡ record self.old { processes = filter (λ q. not (is_zombie_child pid q)) self.old.processes } }
    {
        drop_zombies(&mut self.list, pid);
    }

    fn drop_parents(&mut self, pid: u32)
        ensures { self.new ≡ record self.old { processes = map (without_parent pid) self.old.processes } }
    {
        drop_parents(&mut self.list, pid);
    }

    // Zombie children of a process vanish, and the others have no parent.
    fn orphan(&mut self, pid: u32)
        ensures { self.new ≡ orphaned self.old pid }
    {
        self.drop_zombies(pid);
        self.drop_parents(pid);
    }

    /// The machine at the start of a run, whose processes begin with these images.
    pub fn started(alloc: Global, programs: &[Program], first: &[u32]) -> Result<Machine, NoMemory>
        requires { All (λ number. IsSome (image_numbered programs.now number)) first.now }
        ensures { (A : Inputs) → A.images ≡ programs.now → A.first ≡ first.now → IfOk result (λ machine. machine ≡ start_state A) }
    {
        let mut machine = Machine {
            cache: DecodeCache::empty(),
            list: Vec::new(alloc),
            next_pid: 1,
            next_sid: 1,
        };
        for number in first {
            let number = *number;
            machine.start(alloc, programs, number)?;
        }
        Ok(machine)
    }

    // Starts a first process, of the image of this number.
    fn start(&mut self, alloc: Global, programs: &[Program], number: u32) -> Result<(), NoMemory>
        requires image { IsSome (image_numbered programs.now number) }
        requires numbers { self.old.next_sid ≡ self.old.next_pid }
        ensures { OnOk result (self.new ≡ record {
          processes = self.old.processes ++ start_if self.old.next_pid number (image_numbered programs.now number);
          next_pid = self.old.next_pid + 1;
          next_sid = self.old.next_sid + 1;
        }) }
    {
        let program = program_at(programs, number);
        let Ok(name) = Vec::from_slice(alloc, program.name()) else {
            return Err(NoMemory);
        };
        let arguments = Arguments::of(alloc, Bytes::from_vec(name))?;
        let top = start_page(alloc, &arguments)?;
        let sid = next(self.next_sid)?;
        let space = space_with(alloc, programs, self.next_sid, number, &top)?;
        let regs = start_regs(program.entry(), &arguments);
        self.next_sid = sid;
        self.add(Process::new(self.next_pid, 0, regs, space))
    }

    /// The place of the process of this number.
    pub fn place_of(&self, pid: u32) -> Option<usize>
        ensures { result ≡ position (λ q. q.pid == pid) self.now.processes }
    {
        self.list.iter().position(|process| process.is_of(pid))
    }

    /// The place of the process of this number, where it can step.
    #[tactic(auto, using(crate::proofs::Lists::ready_place, crate::proofs::Lists::pid_at, crate::proofs::Lists::can_at, crate::proofs::Lists::none_can))]
    pub fn ready_place(&self, pid: u32) -> Option<usize>
        ensures can { is_some result ≡ can_step self.now pid }
        ensures place { IfSome result (IsPlace self.now) }
        ensures of { IfSome result (λ place. (process_at self.now place).pid ≡ pid) }
    {
        let place = self.place_of(pid)?;
        if self.at(place).is_ready() {
            Some(place)
        } else {
            None
        }
    }

    // The process at this place goes on with these registers.
    #[tactic(auto, using(crate::proofs::Lists::with_at, crate::proofs::Changing::place_kept))]
    fn keep(&mut self, place: usize, regs: Regs)
        requires { IsPlace self.old place }
        ensures at { IsPlace self.new place }
        ensures after { self.new ≡ with_process self.old (record (process_at self.old place) { regs = regs }) }
    {
        self.list[place].set_regs(regs);
    }

    // The process at this place has something else.
    #[tactic(auto, using(crate::proofs::Lists::with_at))]
    fn exchange(&mut self, place: usize, held: Held) -> Held
        requires { IsPlace self.old place }
        ensures value { holding_of result ≡ (process_at self.old place).holding }
        ensures after { self.new ≡ with_process self.old (record (process_at self.old place) { holding = holding_of held }) }
    {
        self.list[place].exchange(held)
    }

    // The place of the first process that lent its space to this one.
    fn lender(&self, pid: u32) -> Option<usize>
        ensures { result ≡ position (λ q. lends_to pid q.holding) self.now.processes }
    {
        self.list.iter().position(|process| process.lends_to(pid))
    }

    // Who lent to this process has the space again.
    #[tactic(auto, using(crate::proofs::Lists::given_back_at, crate::proofs::Lists::given_back_none))]
    fn give_back(&mut self, pid: u32, held: Held)
        ensures { (s : Space) → holding_of held ≡ Holds s → self.new ≡ given_back self.old pid s }
    {
        if let Some(place) = self.lender(pid) {
            let _lent = self.list[place].exchange(held);
        }
    }

    #[tactic(auto, using(crate::proofs::Lists::with_at))]
    fn resize(&mut self, place: usize, data_pages: u32, stack_pages: u32) -> Result<(), NoMemory>
        requires at { IsPlace self.old place }
        requires of_data { data_pages ≤ 4096 }
        requires of_stack { stack_pages ≤ 512 }
        ensures { OnOk result (self.new ≡ with_process self.old (record (process_at self.old place) {
          holding = Holds (resized (space_at self.old place) data_pages stack_pages);
        })) }
    {
        self.list[place].resize(data_pages, stack_pages)
    }

    #[tactic(auto, using(crate::proofs::Lists::with_same))]
    fn fork(&mut self, alloc: Global, place: usize, child: u32) -> Result<(), NoMemory>
        requires { IsPlace self.old place }
        ensures { OnOk result (self.new ≡ forked self.old (process_at self.old place) (space_at self.old place) child) }
    {
        let sid = next(self.next_sid)?;
        let space = self.list[place].space().copy(alloc, self.next_sid)?;
        let process = child_of(
            self.list[place].pid(),
            self.list[place].regs(),
            child,
            space,
        );
        self.next_sid = sid;
        self.add(process)
    }

    fn lend(&mut self, place: usize, child: u32) -> Result<(), NoMemory>
        requires { IsPlace self.old place }
        ensures { OnOk result (self.new ≡ lent self.old (process_at self.old place) (space_at self.old place) child) }
    {
        let sid = self.list[place].space().sid();
        let pid = self.list[place].pid();
        let regs = self.list[place].regs();
        match self.exchange(place, Held::Lent { sid, child }) {
            Held::Space(space) => self.add(child_of(pid, regs, child, space)),
            Held::Lent { .. } | Held::Zombie(_) => unreachable!(),
        }
    }

    fn exec(
        &mut self,
        alloc: Global,
        programs: &[Program],
        place: usize,
        image: u32,
        top: &Bytes,
    ) -> Result<(), NoMemory>
        requires at { IsPlace self.old place }
        requires image { IsSome (image_numbered programs.now image) }
        requires top { length top.now ≡ 1024 }
        ensures { OnOk result
            (self.new ≡ entered self.old (process_at self.old place) (space_at self.old place) image (image_numbered programs.now image) top.now) }
    {
        let sid = next(self.next_sid)?;
        let space = space_with(alloc, programs, self.next_sid, image, top)?;
        let pid = self.list[place].pid();
        let old = self.exchange(place, Held::Space(space));
        self.next_sid = sid;
        self.give_back(pid, old);
        Ok(())
    }

    fn end(&mut self, place: usize, status: u32)
        requires { IsPlace self.old place }
        ensures { self.new ≡ ended self.old (process_at self.old place) (space_at self.old place) status }
    {
        let pid = self.list[place].pid();
        let parent = self.list[place].parent();
        let old = self.exchange(place, Held::Zombie(status));
        self.give_back(pid, old);
        self.orphan(pid);
        if parent == 0 {
            self.remove(pid);
        } else {
            self.wake(parent);
        }
    }

    #[tactic(auto, using(crate::proofs::Lists::with_at))]
    fn sleep(&mut self, place: usize)
        requires { IsPlace self.old place }
        ensures { self.new ≡ with_process self.old (record (process_at self.old place) { asleep = true }) }
    {
        self.list[place].sleep();
    }

    // Does a change of the process at this place, which is left with these registers.
    #[tactic(auto, using(crate::proofs::Changing::applied_at, crate::proofs::Changing::reaped_at, crate::proofs::Lists::with_same))]
    fn change(
        &mut self,
        alloc: Global,
        programs: &[Program],
        place: usize,
        regs: Regs,
        change: Change,
    ) -> Result<(), NoMemory>
        requires at { IsPlace self.old place }
        requires can { CanChange programs.now change }
        ensures { OnOk result (self.new ≡ apply_change programs.now self.old (process_at self.old place).pid regs change) }
    {
        self.keep(place, regs);
        match change {
            Change::Keep => Ok(()),
            Change::Resize {
                data_pages,
                stack_pages,
            } => self.resize(place, data_pages, stack_pages),
            Change::Fork { child } => self.fork(alloc, place, child),
            Change::Lend { child } => self.lend(place, child),
            Change::Exec { image, top } => self.exec(alloc, programs, place, image, &top),
            Change::Reap { child } => {
                self.remove(child);
                Ok(())
            }
            Change::Sleep => {
                self.sleep(place);
                Ok(())
            }
            Change::End { status } => {
                self.end(place, status);
                Ok(())
            }
        }
    }

    // The process at this place.
    #[tactic(auto, using(crate::proofs::Lists::same_got))]
    fn at(&self, place: usize) -> &Process
        requires { place < length self.now.processes }
        ensures { result.now ≡ process_at self.now place }
    {
        &self.list[place]
    }

    // What the process at this place does after its instruction, which came to this with these registers.
    fn deed(
        &self,
        alloc: Global,
        programs: &[Program],
        place: usize,
        stepped: Stepped,
        regs: Regs,
        refused: bool,
    ) -> Result<Deed, NoMemory>
        requires at { IsPlace self.now place }
        requires few { length programs.now < 2 ^ 31 }
        requires near { IsNearStep stepped }
        ensures value { IfOk result (λ deed. (F : FlatState) (p : Record) (s : Space) (r : Result Effect Refused) → IsBehind F p s r self.now place stepped regs
            → step_by programs.now F p (writes_of r) deed ≡ step_of programs.now F p s refused r) }
        ensures sound { IfOk result (λ deed. CanChange programs.now deed.change) }
    {
        let process = self.at(place);
        match stepped {
            Stepped::Done => Ok(went_on(regs)),
            Stepped::Call(number) => match SystemCall::numbered(number) {
                None => Ok(ended(process, 12)),
                Some(call) => {
                    let list = self.list.as_slice();
                    let reply = reply(
                        alloc,
                        programs,
                        list,
                        self.next_pid,
                        process,
                        process.space(),
                        call,
                        regs,
                    )?;
                    Ok(replied_deed(process, call, regs, refused_reply(refused, reply)))
                }
            },
            Stepped::Below { address } => {
                if refused {
                    Ok(ended(process, 11))
                } else {
                    Ok(grown(process, address))
                }
            }
            Stepped::Miss { .. } => Ok(nothing(process)),
            Stepped::Signal(number) => Ok(ended(process, u32::from(number))),
        }
    }

    /// One step of the process at this place, of which `refused` says whether the pieces of swap space that
    /// it asked for found no place.
    pub fn advance(
        &mut self,
        alloc: Global,
        programs: &[Program],
        place: usize,
        refused: bool,
    ) -> Result<Did, NoMemory>
        requires at { IsPlace self.old place }
        requires few { length programs.now < 2 ^ 31 }
        ensures after { (A : Inputs) → A.images ≡ programs.now → OnOk result (self.new ≡ (flat_step A self.old (process_at self.old place).pid refused).after) }
        ensures entries { (A : Inputs) → A.images ≡ programs.now
            → IfOk result (λ did. entries_of (process_at self.old place).pid did ≡ (flat_step A self.old (process_at self.old place).pid refused).entries) }
    {
        let (stepped, regs) = self.run(place);
        if let Stepped::Done = stepped {
            self.keep(place, regs);
            return Ok(Did::Ran);
        }
        let deed = self.deed(alloc, programs, place, stepped, regs, refused)?;
        self.change(alloc, programs, place, deed.regs, deed.change)?;
        Ok(deed.did)
    }

    /// The next step of the process of this number; nothing where it can't step.
    pub fn step(
        &mut self,
        alloc: Global,
        programs: &[Program],
        pid: u32,
        refused: bool,
    ) -> Result<Did, NoMemory>
        requires { length programs.now < 2 ^ 31 }
        ensures after { (A : Inputs) → A.images ≡ programs.now
            → OnOk result (self.new ≡ state_if (can_step self.old pid) self.old (flat_step A self.old pid refused)) }
        ensures entries { (A : Inputs) → A.images ≡ programs.now
            → IfOk result (λ did. entries_of pid did ≡ entries_if (can_step self.old pid) (flat_step A self.old pid refused)) }
    {
        match self.ready_place(pid) {
            None => Ok(Did::Nothing),
            Some(place) => self.advance(alloc, programs, place, refused),
        }
    }

    // Runs the next instruction of the process at this place over its space.
    #[tactic(auto, using(crate::proofs::Stepping::behind_at, crate::proofs::Lists::with_at, crate::proofs::Changing::place_kept))]
    fn run(&mut self, place: usize) -> (Stepped, Regs)
        requires { IsPlace self.old place }
        ensures near { IsNearStep result.0 }
        ensures at { IsPlace self.new place }
        ensures behind { IsBehind self.old (process_at self.old place) (space_at self.old place)
            (instruction_in (space_at self.old place) (process_at self.old place).regs) self.new place result.0 result.1 }
    {
        self.list[place].run(&mut self.cache)
    }

    // Runs the next instructions of the process at this place over its space, one after another and at most so many, up to one
    // that isn't carried out or makes a call.
    fn run_at(&mut self, place: usize, most: u32) -> u32
        requires { IsPlace self.old place }
        ensures few { result ≤ most }
        ensures all { result ≡ most → (q : Record) × GoesFor (process_at self.old place) most q × (self.new ≡ with_process self.old q) }
        ensures stops { result < most → StopsAfter (process_at self.old place) result }
    {
        self.list[place].run_on(&mut self.cache, most)
    }

    /// The next steps of the process of this number, one after another and at most so many, as long as each is an instruction
    /// that ran. The answer is how many were. Where the next one isn't, its instruction may have been tried, and nothing is told of
    /// the machine.
    #[tactic(auto, using(crate::proofs::Ran::ran_for, crate::proofs::Ran::ran_only, crate::proofs::Ran::idle_for, crate::proofs::Ran::idle_only))]
    pub fn run_on(&mut self, pid: u32, most: u32) -> u32
        ensures few { result ≤ most }
        ensures all { (A : Inputs) → result ≡ most → RunsFor A self.old pid most self.new }
        ensures stops { (A : Inputs) → result < most → RunsNoMore A self.old pid result }
    {
        match self.ready_place(pid) {
            None => 0,
            Some(place) => self.run_at(place, most),
        }
    }

    // Runs the next instruction of the process at this place over its space, and answers with it the pages that the
    // instruction and its call touch.
    #[tactic(auto, using(crate::proofs::Stepping::behind_at, crate::proofs::Lists::with_at, crate::proofs::Changing::place_kept))]
    fn run_touching(
        &mut self,
        alloc: Global,
        programs: &[Program],
        place: usize,
    ) -> Result<(Stepped, Regs, Vec<Page>), NoMemory>
        requires at { IsPlace self.old place }
        requires few { length programs.now < 2 ^ 31 }
        ensures near { IfOk result (λ ran. IsNearStep ran.0) }
        ensures at { OnOk result (IsPlace self.new place) }
        ensures behind { IfOk result (λ ran. IsBehind self.old (process_at self.old place) (space_at self.old place)
            (instruction_in (space_at self.old place) (process_at self.old place).regs) self.new place ran.0 ran.1) }
        ensures pages { IfOk result (λ ran. ran.2.items ≡ touched_in programs.now self.old (process_at self.old place) (process_at self.old place).holding) }
    {
        self.list[place].run_touching(alloc, programs)
    }

    // The next step of the process at this place, and the pages that its instruction touches.
    fn advance_touching(
        &mut self,
        alloc: Global,
        programs: &[Program],
        place: usize,
        refused: bool,
    ) -> Result<Vec<Page>, NoMemory>
        requires at { IsPlace self.old place }
        requires few { length programs.now < 2 ^ 31 }
        ensures after { (A : Inputs) → A.images ≡ programs.now → OnOk result (self.new ≡ (flat_step A self.old (process_at self.old place).pid refused).after) }
        ensures pages { IfOk result (λ pages. pages.items ≡ touched_in programs.now self.old (process_at self.old place) (process_at self.old place).holding) }
    {
        let (stepped, regs, pages) = self.run_touching(alloc, programs, place)?;
        let deed = self.deed(alloc, programs, place, stepped, regs, refused)?;
        self.change(alloc, programs, place, deed.regs, deed.change)?;
        Ok(pages)
    }

    /// The next step of the process of this number, as `step` makes it, and the pages that its instruction touches.
    #[tactic(auto, using(crate::proofs::Touches::touched_at, flat_model::proofs::Idle::idle_touches))]
    pub fn step_touching(
        &mut self,
        alloc: Global,
        programs: &[Program],
        pid: u32,
        refused: bool,
    ) -> Result<Vec<Page>, NoMemory>
        requires { length programs.now < 2 ^ 31 }
        ensures after { (A : Inputs) → A.images ≡ programs.now
            → OnOk result (self.new ≡ state_if (can_step self.old pid) self.old (flat_step A self.old pid refused)) }
        ensures pages { (A : Inputs) → A.images ≡ programs.now → IfOk result (λ pages. pages.items ≡ touched A self.old pid) }
    {
        match self.ready_place(pid) {
            None => Ok(Vec::new(alloc)),
            Some(place) => self.advance_touching(alloc, programs, place, refused),
        }
    }
}

// One instruction ran.
fn went_on(regs: Regs) -> Deed
    ensures { result ≡ record { did = Did.Ran; regs = regs; change = Change.Keep } }
{
    Deed {
        did: Did::Ran,
        regs,
        change: Change::Keep,
    }
}

fn nothing(process: &Process) -> Deed
    ensures { result ≡ record { did = Did.Nothing; regs = process.now.regs; change = Change.Keep } }
{
    Deed {
        did: Did::Nothing,
        regs: process.regs(),
        change: Change::Keep,
    }
}

// The process ends, with the registers that it had.
fn ended(process: &Process, status: u32) -> Deed
    ensures { result ≡ record { did = Did.Ended status; regs = process.now.regs; change = Change.End status } }
{
    Deed {
        did: Did::Ended(status),
        regs: process.regs(),
        change: Change::End { status },
    }
}

// The stack grows to the page of an address, and the instruction is still to come.
fn grown(process: &Process, address: u32) -> Deed
    requires holds { IsTrue (holds_space process.now.holding) }
    requires near { IsNear address }
    ensures value { result ≡ record {
      did = Did.Grew (pages_down_to address);
      regs = process.now.regs;
      change = Change.Resize (data_pages_of (space_in process.now.holding)) (pages_down_to address);
    } }
    ensures few { (pages_down_to address ≤ 512) × (data_pages_of (space_in process.now.holding) ≤ 4096) }
{
    let stack_pages = (STACK_TOP - 1 - address) / PAGE + 1;
    let data_pages = process.space().data_pages();
    Deed {
        did: Did::Grew(stack_pages),
        regs: process.regs(),
        change: Change::Resize {
            data_pages,
            stack_pages,
        },
    }
}

// A call and its reply, from the registers that the instruction left.
fn replied_deed(process: &Process, call: SystemCall, regs: Regs, reply: Reply) -> Deed
    ensures value { (images : List NamedImage) (F : FlatState) (p : Record) (effect : Effect) → CanReply images reply
        → p.regs ≡ process.now.regs → effect.regs ≡ regs
        → step_by images F p effect.writes result ≡ replied_step images F p call effect reply }
    ensures sound { (images : List NamedImage) → CanReply images reply → CanChange images result.change }
{
    match reply {
        Reply::Exits(status) => ended(process, status),
        Reply::Does(after, change) => Deed {
            did: Did::Replied(call, after),
            regs: after,
            change,
        },
        Reply::Fails(error) => answered(call, replied(regs, true, error)),
        Reply::Writes(bytes) => {
            let len = bytes.as_slice().len().min(WRITE_LIMIT as usize);
            let after = replied(regs, false, len as u32);
            Deed {
                did: Did::Wrote(call, bytes, after),
                regs: after,
                change: Change::Keep,
            }
        }
        Reply::Waits => Deed {
            did: Did::Slept,
            regs: process.regs(),
            change: Change::Sleep,
        },
    }
}

fn answered(call: SystemCall, after: Regs) -> Deed
    ensures { result ≡ record { did = Did.Replied call after; regs = after; change = Change.Keep } }
{
    Deed {
        did: Did::Replied(call, after),
        regs: after,
        change: Change::Keep,
    }
}
