//! Reads what a case asks for: sizes, images of first processes, and the schedule.
ghost use Rattle.std.specs.Prelude.{◌≤◌, length};

use crate::running::{Setup, Unfit};
use command_edge::first_images;
use run_text::{Schedule, read_schedule};
use std::alloc::{AllocError, Global};
use vm_facts::{Event, Params};

/// The words of a line.
pub fn words_of<'a>(alloc: Global, line: &'a str) -> Result<Vec<&'a str>, AllocError> {
    let mut words = Vec::new(alloc);
    for word in line.split(' ') {
        words.push(word)?;
    }
    Ok(words)
}

// The events of a schedule.
fn events_of(alloc: Global, schedule: &str) -> Result<Vec<Event>, Unfit> {
    match read_schedule(alloc, schedule.as_bytes())? {
        Schedule::Is(events) => Ok(events),
        Schedule::BadLine(_) => Err(Unfit::Schedule),
    }
}

// A number in decimal.
fn number(word: &str) -> Option<u32> {
    word.parse::<u32>().ok()
}

// The sizes of a run: its frames, its swap blocks, and how many instructions and entries there may be.
fn read_sizes(words: &[&str]) -> Option<Params> {
    let [frames, swap_blocks, limit, journal] = words else {
        return None;
    };
    Some(Params {
        frames: number(frames)?,
        swap_blocks: number(swap_blocks)?,
        limit: number(limit)?,
        journal: number(journal)?,
    })
}

/// What these words and this schedule ask for: sizes, and words of images with these names.
pub fn read_setup(
    alloc: Global,
    sizes: &[&str],
    names: &[&str],
    words: &[&str],
    schedule: &str,
) -> Result<Setup, Unfit>
    requires { length names.now ≤ 16 }
{
    let Some(params) = read_sizes(sizes) else {
        return Err(Unfit::Words);
    };
    Ok(Setup {
        params,
        first: first_images(alloc, names, words)?,
        events: events_of(alloc, schedule)?,
    })
}
