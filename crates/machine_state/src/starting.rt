//! A first process begins: its swap, its space, and a stack page that is due. Only the start of a run may make
//! processes so.
ghost use Rattle.std.specs.Prelude.{◌≡◌, ◌<◌, true, false, [], ◌∷◌, length, string_bytes, IfOk, OnOk, OnErr, Ok, Err};
ghost use Rattle.aout_image.specs.Image.{IsSound};
ghost use Rattle.flat_state.specs.Flat.{start_page, start_regs};
ghost use Rattle.machine_state.specs.Going.{CanGoOn};
ghost use Rattle.machine_state.specs.Beginning.{MayStart, StartedFirst, FindsNoPlace, MayLookFirst, LookedFirst, MayEnterFirst, BeganFirst};
ghost use Rattle.table_steps.specs.Conditions.{HasBrokenOff};

use crate::machine::Machine;
use flat_model::{Arguments, start_page, start_regs};
use proc_table::Life;
use std::alloc::Global;
use swap_book::Owner;
use swap_wants::{Want, find_all, image_wants};
use table_steps::kernel_tables::{Named, Tables};
use table_steps::notes;
use vm_facts::{Bytes, NoMemory, Regs, Stop};

// The registers and the stack page 0 with which an image starts, its name being the one argument.
fn start_of(alloc: Global, named: &Named) -> Result<(Regs, Bytes), NoMemory>
    requires sound { IsSound named.now.facts }
    requires short { length (string_bytes named.now.name) < 64 }
    ensures regs { IfOk result (λ start. start.0 ≡ start_regs named.now.facts.entry (string_bytes named.now.name ∷ [])) }
    ensures top { IfOk result (λ start. start.1 ≡ start_page (string_bytes named.now.name ∷ [])) }
    ensures whole { IfOk result (λ start. length start.1 ≡ 1024) }
{
    let name = Vec::from_slice(alloc, named.name.as_bytes())?;
    let arguments = Arguments::of(alloc, Bytes::from_vec(name))?;
    let top = start_page(alloc, &arguments)?;
    Ok((start_regs(named.facts.entry, &arguments), top))
}

// The pieces of a first process are found, and with them nothing is done yet.
fn find_first(tables: &mut Tables, pid: u32, image: u32) -> Result<bool, NoMemory>
    requires { MayLookFirst tables.old pid image }
    ensures looked { IfOk result (λ fits. LookedFirst tables.old tables.new pid image fits) }
    ensures err { OnErr result (tables.new ≡ tables.old) }
{
    let facts = tables.images[image as usize - 1].facts;
    let [text, data, stack] = image_wants(&facts, image, tables.next_sid);
    let u = Want {
        owner: Owner::U(pid),
        blocks: 2,
    };
    if tables.texts.sharers(image) > 0 {
        find_all(&mut tables.book, &[data, stack, u], true)
    } else {
        find_all(&mut tables.book, &[text, data, stack, u], true)
    }
}

// A first process starts, whose pieces were found.
fn start_first(tables: &mut Tables, alloc: Global, image: u32) -> Result<(), NoMemory>
    requires { MayEnterFirst tables.old image }
    ensures began { OnOk result (BeganFirst tables.old tables.new image) }
    ensures params { tables.new.params ≡ tables.old.params }
    ensures images { tables.new.images ≡ tables.old.images }
{
    let (regs, top) = start_of(alloc, &tables.images[image as usize - 1])?;
    let sid = tables.enter_image(alloc, image, top)?;
    tables.add_process(0, regs, Life::Holds(sid), 0)
}

impl Machine {
    /// Begins a first process in an image: with its pieces of swap, its space, and its stack page 0, which is due. It
    /// appends no entry. False comes exactly where the pieces find no place, and then nothing changes.
    pub fn begin(&mut self, pid: u32, image: u32) -> Result<bool, Stop>
        requires ready { CanGoOn self.old }
        requires may { MayStart self.old pid image }
        ensures began { result ≡ Ok true → StartedFirst self.old self.new image }
        ensures no_place { result ≡ Ok false → FindsNoPlace self.old image }
        ensures same { result ≡ Ok false → self.new ≡ self.old }
        ensures stop { OnErr result (HasBrokenOff self.old self.new) }
        ensures cause { OnErr result (result ≡ Err Stop.NoMemory) }
        ensures goes_on { OnOk result (CanGoOn self.new) }
    {
        self.tables.core.stands();
        let found = find_first(&mut self.tables, pid, image);
        if !notes::or_break_off(&mut self.stopped, found)? {
            return Ok(false);
        }
        let started = start_first(&mut self.tables, self.alloc, image);
        notes::or_break_off(&mut self.stopped, started)?;
        self.tables.found = 0;
        Ok(true)
    }
}
