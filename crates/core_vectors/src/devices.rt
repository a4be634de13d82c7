//! Makes a case's run on one swap device or on two, and gives the text that is compared.
ghost use Rattle.std.specs.Prelude.{◌≡◌, ◌^◌, ◌<◌, vec_len};
ghost use Rattle.core_vectors.specs.Ready.{AreFit};

use crate::cases::Reader;
use crate::faults::{DeviceFaults, Faults, read_faults};
use crate::opening::{files_named, open_all};
use crate::outcome::outcome_line;
use crate::running::{Ran, Setup, Unfit, run_over};
use crate::setup::{read_setup, words_of};
use crate::sums::put_pages;
use command_edge::image_names;
use io_edge::{Files, MemFiles, MemSwap, SwapPair};
use machine_state::Named;
use std::alloc::{AllocError, Global};

/// A run of up to this many blocks has one device.
const ONE_DEVICE: u32 = 1024;

// A device of so many blocks, of which these calls fail.
fn new_device(alloc: Global, blocks: u32, faults: DeviceFaults) -> Result<MemSwap, Unfit> {
    match MemSwap::new(alloc, blocks, faults.reads, faults.writes) {
        Ok(swap) => Ok(swap),
        Err(_) => Err(Unfit::NoMemory),
    }
}

// The text of a journal, and the line of how the run ended.
fn text_of(alloc: Global, ran: &Ran, device: Option<u32>) -> Result<String, AllocError> {
    let mut text = String::new(alloc);
    if let Ok(journal) = str::from_utf8(ran.journal.written()) {
        text.push_str(journal)?;
    }
    let line = outcome_line(alloc, ran.outcome, device)?;
    text.push_str(line.as_str())?;
    Ok(text)
}

// What a run gave on one device, with the pages that are left there.
fn on_one<F: Files>(
    alloc: Global,
    setup: &Setup,
    images: Vec<Named>,
    files: &mut F,
    faults: DeviceFaults,
    room: usize,
) -> Result<String, Unfit>
    requires { AreFit images.items (F.holds files.old) }
{
    let mut zero = new_device(alloc, setup.params.swap_blocks, faults)?;
    let ran = run_over(alloc, setup, images, files, &mut zero, room)?;
    let mut text = text_of(alloc, &ran, Some(0))?;
    put_pages(alloc, &mut text, &mut zero, 0)?;
    Ok(text)
}

// What a run gave on two devices, and the device of its last failed call.
fn on_pair<F: Files>(
    alloc: Global,
    setup: &Setup,
    images: Vec<Named>,
    files: &mut F,
    zero: &mut MemSwap,
    one: &mut MemSwap,
    room: usize,
) -> Result<String, Unfit>
    requires { AreFit images.items (F.holds files.old) }
{
    let mut pair = SwapPair::new(zero, one);
    let ran = run_over(alloc, setup, images, files, &mut pair, room)?;
    let device = pair.failed_read().or(pair.failed_write());
    Ok(text_of(alloc, &ran, device)?)
}

// The same, with the pages that are left on both.
fn on_two<F: Files>(
    alloc: Global,
    setup: &Setup,
    images: Vec<Named>,
    files: &mut F,
    of_zero: DeviceFaults,
    of_one: DeviceFaults,
    room: usize,
) -> Result<String, Unfit>
    requires { AreFit images.items (F.holds files.old) }
{
    let blocks = setup.params.swap_blocks;
    let mut zero = new_device(alloc, blocks, of_zero)?;
    let mut one = new_device(alloc, blocks, of_one)?;
    let mut text = on_pair(alloc, setup, images, files, &mut zero, &mut one, room)?;
    put_pages(alloc, &mut text, &mut zero, 0)?;
    put_pages(alloc, &mut text, &mut one, 1)?;
    Ok(text)
}

// Runs a case of this setup over images of these names.
fn run_setup(alloc: Global, case: &Reader, setup: &Setup, names: &[&str]) -> Result<String, Unfit> {
    let Faults { files, zero, one } = read_faults(alloc, case.faults.as_str())?;
    let held = files_named(alloc, case.images.as_slice(), names)?;
    if held.len() > 16 {
        return Err(Unfit::Ranges);
    }
    let mut files = MemFiles::new(held, files);
    let images = open_all(alloc, &mut files, names)?;
    let room = case.wanted.len().saturating_add(8192);
    if setup.params.swap_blocks <= ONE_DEVICE {
        on_one(alloc, setup, images, &mut files, zero, room)
    } else {
        on_two(alloc, setup, images, &mut files, zero, one, room)
    }
}

/// The text that a case gives: its journal, how it ended, and the pages that are left on swap.
pub fn run_case(alloc: Global, case: &Reader) -> Result<String, Unfit> {
    let words = words_of(alloc, case.words.as_str())?;
    let Some((sizes, words)) = words.as_slice().split_at_checked(4) else {
        return Err(Unfit::Words);
    };
    let names = image_names(alloc, words)?;
    if names.len() > 16 {
        return Err(Unfit::Ranges);
    }
    let setup = read_setup(
        alloc,
        sizes,
        names.as_slice(),
        words,
        case.schedule.as_str(),
    )?;
    run_setup(alloc, case, &setup, names.as_slice())
}
