//! `Machine`, and the steps by which pages get frames and transfers end. Room comes first, the tables move next, the
//! entry comes last. Here the end of a transfer alone calls a device.
ghost use Rattle.io_edge.specs.WithFiles.{stores};
ghost use Rattle.machine_state.specs.Performing.{IsAtBound, Performs, StopsForRoom};
ghost use Rattle.std.specs.Prelude.{◌≡◌, ◌<◌, ◌≤◌, ◌↔◌, true, false, [], length, map, None, IfOk, OnOk, OnErr, IfErr, Ok, Err};
ghost use Rattle.table_steps.specs.New.{fresh_kernel, AreSound};
ghost use Rattle.kernel_model.specs.Kernel.{zero_step, get_step, reclaim_step};
ghost use Rattle.page_model.specs.Dues.{DueStand};
ghost use Rattle.flat_state.specs.PageNames.{pages_from};
ghost use Rattle.kernel_model.specs.Numbers.{Numbered};
ghost use Rattle.kernel_model.specs.Sound.{Sound};
ghost use Rattle.table_steps.specs.Machine.{image_shown};
ghost use Rattle.table_steps.specs.Sourced.{AreNames, files_named};
ghost use Rattle.machine_state.specs.Going.{CanGoOn, IsRunning};
ghost use Rattle.machine_state.specs.Texts.{TextsStand};
ghost use Rattle.page_model.specs.Swapper.{is_settled};
ghost use Rattle.table_steps.specs.Settled.{SettledBy, IsSameBeside, StopsSettling};
ghost use Rattle.table_steps.specs.Done.{sources, IsDone, KeepsThrough, ImageAfter, SwapAfter, StopsFor};
ghost use Rattle.table_steps.specs.Failing.{LosesFor};
ghost use Rattle.table_steps.specs.Conditions.{CanZero, CanBringIn, CanReclaim, HasStopped, SameElsewhere, SameEverywhere, SameOutside};
ghost use Rattle.machine_state.specs.Outside.{Asks, stop_of, TransfersPages};
ghost use Rattle.machine_state.specs.FilesAsked.{NotedAfter};

use core_map::CoreMap;
use io_edge::{Files, SwapDev};
use proc_table::ProcTable;
use std::alloc::Global;
use std::collections::VecDeque;
use std::marker::Model;
use swap_book::SwapBook;
use table_steps::kernel_tables::{Named, Spaces, Tables, fill_frame};
use table_steps::{landing, notes, reading};
use text_table::TextTable;
use transfer_ring::{Finished, Transfer, TransferRing};
use vm_facts::{Entry, NoMemory, Page, Params, Stop};

/// The machine: all tables and the journal. Contracts see it as lists, the kernel of `kernel_model`, and its sizes.
///
/// Tokens can't be dropped, so a machine must be ended.
pub struct Machine {
    pub(crate) tables: Tables,
    pub(crate) journal: Vec<Entry>,
    pub(crate) stopped: bool,

    // The process for which the journal has room for one more instruction.
    pub(crate) room: Option<u32>,

    // A transfer that failed.
    pub(crate) lost: Option<Transfer>,
    pub(crate) alloc: Global,
}

impl Model for Machine {
    ghost use Rattle.table_steps.specs.Machine.{Standing};

    ghost Value = { Standing };

    ghost use Rattle.machine_state.specs.Fields.{standing_of, RunsInside};

    ghost view = { standing_of };

    ghost invariant = { RunsInside };
}

impl Machine {
    /// A machine of these images, with no process yet.
    pub fn new(alloc: Global, params: Params, images: Vec<Named>) -> Result<Machine, NoMemory>
        requires some { 0 < params.frames }
        requires few { params.frames ≤ 4096 }
        requires images { length images.items ≤ 16 }
        requires sound { AreSound (map (λ image. image.facts) images.items) }
        requires names { AreNames (map image_shown images.items) }
        ensures fresh { IfOk result (λ m. m ≡ record {
          kernel = fresh_kernel (map (λ image. image.facts) images.items) params.frames;
          params = params;
          images = map image_shown images.items;
          before = [];
          room = None;
        }) }
        ensures goes_on { IfOk result CanGoOn }
    {
        let processes = ProcTable::new(alloc)?;
        let book = SwapBook::new(alloc, params.swap_blocks)?;
        let ring = TransferRing::new(alloc)?;
        let Ok(core) = CoreMap::new(alloc, params.frames) else {
            ring.close();
            return Err(NoMemory);
        };
        let tables = Tables {
            params,
            images,
            core,
            ring,
            spaces: Spaces::new(alloc),
            texts: TextTable::new(),
            processes,
            book,
            fills: VecDeque::new(alloc),
            front: 1 + params.frames / 4,
            back: 1,
            next_pid: 1,
            next_sid: 1,
            found: 0,
        };
        Ok(Machine {
            tables,
            journal: Vec::new(alloc),
            stopped: false,
            room: None,
            lost: None,
            alloc,
        })
    }

    /// What is so of each machine, also of one that has stopped: its journal is within its bound. Where it runs, with the holdings before
    /// the pieces that were found last, its tables are sound.
    pub fn always(&self)
        ensures within { length self.now.kernel.journal ≤ self.now.params.journal }
        ensures running { self.now.kernel.stopped ≡ false → IsRunning self.now }
    {
        let _ = &self.stopped;
    }

    /// The entries so far.
    pub fn journal(&self) -> &[Entry]
        ensures { result.now ≡ self.now.kernel.journal }
    {
        self.journal.as_slice()
    }

    /// How many frames are free.
    pub fn free_frames(&self) -> u32
        ensures { result ≡ length self.now.kernel.place.free }
    {
        self.tables.core.free_frames()
    }

    /// The step of `Zero`: a page of zeros, or a new stack page that is due, takes a free frame.
    pub fn fill_zero(&mut self, page: Page) -> Result<(), Stop>
        requires ready { CanGoOn self.old }
        requires can { CanZero self.old.kernel.place page }
        ensures performs { Performs (zero_step self.old.kernel page) (λ k l. SameElsewhere k l page) result self.old self.new }
        ensures stops { StopsForRoom (IsAtBound self.old) result self.old self.new }
    {
        notes::make_room(
            &mut self.journal,
            &mut self.room,
            self.tables.params.journal,
        )?;
        self.tables.core.stands();
        let token = self.tables.take_frame();
        let filled = fill_frame(token, &self.tables.fills);
        self.tables.seat(filled, page, true);
        self.tables.finish_fill();
        self.journal.push_reserved(Entry::Zero { page });
        Ok(())
    }

    /// The step of `Reclaim`: a page that a frame still holds is usable again.
    pub fn reclaim(&mut self, page: Page) -> Result<(), Stop>
        requires ready { CanGoOn self.old }
        requires can { CanReclaim self.old.kernel.place page }
        ensures performs { Performs (reclaim_step self.old.kernel page) SameEverywhere result self.old self.new }
        ensures stops { StopsForRoom (IsAtBound self.old) result self.old self.new }
    {
        notes::make_room(
            &mut self.journal,
            &mut self.room,
            self.tables.params.journal,
        )?;
        self.tables.core.stands();
        let (frame, changed) = self.tables.spaces.frame_of(page);
        let dirty = landing::is_dirty_as(&self.tables.texts, page, changed);
        self.tables.revive(page, frame, dirty);
        self.journal.push_reserved(Entry::Reclaim { page });
        Ok(())
    }

    /// The step of `Get`: pages that are all on swap, or all in their image's file, take a free frame each, and their read
    /// begins.
    pub fn begin_get(&mut self, page: Page, lo: u32, n: u32) -> Result<(), Stop>
        requires ready { CanGoOn self.old }
        requires can { CanBringIn self.old.kernel.place page lo n }
        ensures performs { Performs (get_step self.old.kernel page lo n) (λ k l. SameOutside k l (pages_from page lo n)) result self.old self.new }
        ensures stops { StopsForRoom (IsAtBound self.old) result self.old self.new }
    {
        notes::make_room(
            &mut self.journal,
            &mut self.room,
            self.tables.params.journal,
        )?;
        let parts = notes::or_stop(reading::room_in(self.alloc, n))?;
        self.tables.core.stands();
        reading::read_run(&mut self.tables, parts, page, lo, n);
        self.journal.push_reserved(Entry::Get { page, lo, n });
        Ok(())
    }

    /// The step of `Done`: the oldest transfer completes, through its device. False comes exactly where none is in flight.
    ///
    /// A transfer that fails is kept until the machine ends.
    pub fn done<F: Files, D: SwapDev>(&mut self, files: &mut F, swap: &mut D) -> Result<bool, Stop>
        requires asks { Asks self.old (F.holds files.old) (D.blocks swap.old) }
        ensures idle { (result ≡ Ok false) ↔ (self.old.kernel.place.transfers ≡ []) }
        ensures still { result ≡ Ok false → self.new ≡ self.old }
        ensures step { result ≡ Ok true → IsDone (sources self.old (F.holds files.old)) (stores F.Files D.SwapDev files.old swap.old) self.old.kernel
            self.new.kernel }
        ensures rest { result ≡ Ok true → self.new ≡ record self.old { kernel = self.new.kernel; room = None } }
        ensures keeps { OnOk result (KeepsThrough self.old self.new (F.holds files.old) (stores F.Files D.SwapDev files.old swap.old)
            (stores F.Files D.SwapDev files.new swap.new)) }
        ensures swapped { OnOk result (ImageAfter (files_named self.old.images) self.old.kernel (stores F.Files D.SwapDev files.old swap.old)
            (stores F.Files D.SwapDev files.new swap.new)) }
        ensures spoiled { OnErr result (SwapAfter result (files_named self.old.images) self.old.kernel (stores F.Files D.SwapDev files.old swap.old)
            (stores F.Files D.SwapDev files.new swap.new)) }
        ensures noted { NotedAfter result (files_named self.old.images) self.old.kernel.place (F.notes files.old) (F.notes files.new) }
        ensures stop { OnErr result (HasStopped self.old self.new) }
        ensures cause { StopsFor result self.old.kernel.place.transfers }
        ensures lost { LosesFor result self.old self.new }
        ensures full { (result ≡ Err Stop.JournalFull)
            ↔ ((0 < length self.old.kernel.place.transfers) × (self.old.params.journal ≤ length self.old.kernel.journal)) }
        ensures outside { TransfersPages F.Files D.SwapDev (stop_of result) files.old files.new swap.old swap.new }
        ensures goes_on { OnOk result (CanGoOn self.new) }
    {
        if self.tables.ring.len() == 0 {
            return Ok(false);
        }
        notes::make_room(
            &mut self.journal,
            &mut self.room,
            self.tables.params.journal,
        )?;
        self.tables.core.stands();
        match self.tables.ring.complete_oldest(files, swap) {
            Finished::Done(transfer) => {
                landing::land(&mut self.tables, transfer);
                self.journal.push_reserved(Entry::Done);
                Ok(true)
            }
            Finished::FileFault(transfer) => {
                notes::lose(&mut self.lost, &mut self.stopped, transfer);
                Err(Stop::FileFault)
            }
            Finished::SwapReadFault(transfer) => {
                notes::lose(&mut self.lost, &mut self.stopped, transfer);
                Err(Stop::SwapReadFault)
            }
            Finished::SwapWriteFault(transfer) => {
                notes::lose(&mut self.lost, &mut self.stopped, transfer);
                Err(Stop::SwapWriteFault)
            }
            Finished::Idle => unreachable!(),
        }
    }

    /// Whether no transfer in flight names a page of this space, nor of its text where no other space shares that.
    pub fn settled(&self, sid: u32) -> bool
        requires { IsRunning self.now }
        ensures { result ≡ is_settled self.now.kernel.place sid }
    {
        landing::is_settled(&self.tables, sid)
    }

    /// Transfers end, one after another, until the space is settled.
    pub fn settle<F: Files, D: SwapDev>(
        &mut self,
        files: &mut F,
        swap: &mut D,
        sid: u32,
    ) -> Result<(), Stop>
        requires asks { Asks self.old (F.holds files.old) (D.blocks swap.old) }
        ensures settled { OnOk result
            (SettledBy (sources self.old (F.holds files.old)) sid self.old.kernel self.new.kernel (stores F.Files D.SwapDev files.old swap.old)
            (stores F.Files D.SwapDev files.new swap.new)) }
        ensures rest { OnOk result (IsSameBeside self.old self.new) }
        ensures keeps { OnOk result (KeepsThrough self.old self.new (F.holds files.old) (stores F.Files D.SwapDev files.old swap.old)
            (stores F.Files D.SwapDev files.new swap.new)) }
        ensures stops { IfErr result (StopsSettling sid self.old self.new (F.holds files.old) (stores F.Files D.SwapDev files.old swap.old)
            (stores F.Files D.SwapDev files.new swap.new)) }
        ensures outside { TransfersPages F.Files D.SwapDev (stop_of result) files.old files.new swap.old swap.new }
        ensures goes_on { OnOk result (CanGoOn self.new) }
    {
        if self.settled(sid) {
            return Ok(());
        }
        if self.done(files, swap)? {
            self.settle(files, swap, sid)
        } else {
            Ok(())
        }
    }
}
