//! `Core`: a machine, and how many instructions its run counted. The count may not pass the limit. It must be ended,
//! since frames can't be dropped.
ghost use Rattle.std.specs.Prelude.{◌≡◌, ◌+◌, ◌<◌, ◌≤◌, true, false, [], length, map, None, IfOk};
ghost use Rattle.machine_state.specs.Machine.{image_shown};
ghost use Rattle.machine_state.specs.New.{fresh_kernel, AreSound};
ghost use Rattle.machine_state.specs.Sourced.{AreNames};
ghost use Rattle.vm_core.specs.Starting.{IsFresh};

use machine_state::{Machine, Named};
use proc_run::DecodeCache;
use std::alloc::Global;
use std::marker::Model;
use vm_facts::{Entry, NoMemory, Params};

/// A run; contracts see its machine, and how many instructions were counted. It must be ended.
pub struct Core {
    pub(crate) alloc: Global,
    pub(crate) cache: DecodeCache,
    pub(crate) machine: Machine,

    // The instructions so far.
    pub(crate) counted: u32,
}

impl Model for Core {
    ghost use Rattle.vm_core.specs.Cores.{Underway};

    ghost Value = { Underway };

    ghost use Rattle.vm_core.specs.Fields.{underway_of};

    ghost view = { underway_of };
}

impl Core {
    /// A run of these images, with no process yet.
    pub fn new(alloc: Global, params: Params, images: Vec<Named>) -> Result<Core, NoMemory>
        requires some { 0 < params.frames }
        requires few { params.frames ≤ 4096 }
        requires images { length images.items ≤ 16 }
        requires sound { AreSound (map (λ image. image.facts) images.items) }
        requires names { AreNames (map image_shown images.items) }
        ensures machine { IfOk result (λ c. c.machine ≡ record {
          kernel = fresh_kernel (map (λ image. image.facts) images.items) params.frames;
          params = params;
          images = map image_shown images.items;
          before = [];
          room = None;
        }) }
        ensures fresh { IfOk result IsFresh }
    {
        Ok(Core {
            alloc,
            cache: DecodeCache::empty(),
            machine: Machine::new(alloc, params, images)?,
            counted: 0,
        })
    }

    /// Whether as many instructions are counted as may.
    pub(crate) fn is_over(&self) -> bool
        ensures yes { result ≡ true → self.now.machine.params.limit ≤ self.now.counted }
        ensures no { result ≡ false → self.now.counted < self.now.machine.params.limit }
    {
        self.counted >= self.machine.params().limit
    }

    /// The machine.
    pub fn machine(&self) -> &Machine
        ensures { result.now ≡ self.now.machine }
    {
        &self.machine
    }

    /// The entries so far.
    pub fn journal(&self) -> &[Entry]
        ensures { result.now ≡ self.now.machine.kernel.journal }
    {
        self.machine.journal()
    }

    /// Ends the run, with all frames.
    pub fn end(self) {
        let Core {
            alloc: _,
            cache: _,
            machine,
            counted: _,
        } = self;
        machine.end();
    }
}
