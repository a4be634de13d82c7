//! `Film`: a machine, and what is known of its run. Between two calls the journal is full, so no further entry can
//! come. A film must be ended, since frames can't be dropped.
ghost use Rattle.std.specs.Prelude.{◌≡◌, ◌↔◌, ◌+◌, ◌<◌, ◌≤◌, true, false, [], length, map, None, IfOk};
ghost use Rattle.machine_state.specs.Going.{CanGoOn, IsRunning};
ghost use Rattle.machine_state.specs.Machine.{image_shown};
ghost use Rattle.machine_state.specs.New.{fresh_kernel, AreSound};
ghost use Rattle.machine_state.specs.Sourced.{AreNames};
ghost use Rattle.vm_core.specs.Choosing.{turn_after};

use machine_state::{Machine, Named};
use run_model::Mark;
use std::alloc::Global;
use std::marker::Model;
use vm_core::proc_run::{DecodeCache, next_turned};
use vm_facts::{Entry, Event, NoMemory, Params};

/// A run that goes on from entry to entry: contracts see its machine, how many lines were taken, the last mark, how many
/// instructions were counted, and whether the run is over. It must be ended.
pub struct Film {
    pub(crate) alloc: Global,
    pub(crate) cache: DecodeCache,
    pub(crate) machine: Machine,

    // The lines taken so far.
    pub(crate) lines: u32,

    // What is still to come of the last line or turn.
    pub(crate) mark: Mark,

    // The instructions so far.
    pub(crate) counted: u32,

    pub(crate) over: bool,
}

impl Model for Film {
    ghost use Rattle.film_core.specs.Films.{Filming};

    ghost Value = { Filming };

    ghost use Rattle.film_core.specs.Fields.{filming_of};

    ghost view = { filming_of };
}

impl Film {
    /// A film of a run of these images, with no process yet. It has room for no entry where the sizes say so.
    pub fn new(alloc: Global, params: Params, images: Vec<Named>) -> Result<Film, NoMemory>
        requires some { 0 < params.frames }
        requires few { params.frames ≤ 4096 }
        requires images { length images.items ≤ 16 }
        requires sound { AreSound (map (λ image. image.facts) images.items) }
        requires names { AreNames (map image_shown images.items) }
        ensures machine { IfOk result (λ f. f.machine ≡ record {
          kernel = fresh_kernel (map (λ image. image.facts) images.items) params.frames;
          params = params;
          images = map image_shown images.items;
          before = [];
          room = None;
        }) }
        ensures goes_on { IfOk result (λ f. CanGoOn f.machine) }
        ensures lines { IfOk result (λ f. f.lines ≡ 0) }
        ensures mark { IfOk result (λ f. f.mark ≡ Mark.Over) }
        ensures counted { IfOk result (λ f. f.counted ≡ 0) }
        ensures over { IfOk result (λ f. f.over ≡ false) }
    {
        Ok(Film {
            alloc,
            cache: DecodeCache::empty(),
            machine: Machine::new(alloc, params, images)?,
            lines: 0,
            mark: Mark::Over,
            counted: 0,
            over: false,
        })
    }

    /// The machine.
    pub fn machine(&self) -> &Machine
        ensures { result.now ≡ self.now.machine }
    {
        &self.machine
    }

    /// What is still to come of the last line or turn.
    pub fn mark(&self) -> Mark
        ensures { result ≡ self.now.mark }
    {
        self.mark
    }

    /// The entries so far.
    pub fn journal(&self) -> &[Entry]
        ensures { result.now ≡ self.now.machine.kernel.journal }
    {
        self.machine.journal()
    }

    /// How many instructions were counted.
    pub fn counted(&self) -> u32
        ensures { result ≡ self.now.counted }
    {
        self.counted
    }

    /// Whether no further unit comes.
    pub fn is_over(&self) -> bool
        ensures { result ≡ self.now.over }
    {
        self.over
    }

    /// Whether all lines of the run were taken, which are these, and no process can step.
    pub fn is_idle(&self, lines: &[Event]) -> bool
        requires { IsRunning self.now.machine }
        ensures { (result ≡ true) ↔ ((length lines.now ≤ self.now.lines) × (turn_after self.now.machine.kernel 0 ≡ None)) }
    {
        lines.len() <= self.lines as usize && next_turned(&self.machine, 0).is_none()
    }

    /// Ends the film, with all frames.
    pub fn end(self) {
        let Film {
            alloc: _,
            cache: _,
            machine,
            lines: _,
            mark: _,
            counted: _,
            over: _,
        } = self;
        machine.end();
    }
}
