//! Opens what a run's words name: schedule, images, devices. The first fault in this order decides.
ghost use Rattle.std.specs.Prelude.{◌≡◌, ◌≤◌, ◌<◌, ℕ, List, Some, Ok, All, IfOk, length, map};
ghost use Rattle.io_edge.specs.Calls.{KeepsFiles};
ghost use Rattle.io_edge.specs.FileHolding.{NamedFile, HasRange};
ghost use Rattle.io_edge.specs.Striping.{most_blocks};
ghost use Rattle.aout_image.specs.Image.{IsSound, file_length_of};
ghost use Rattle.command_edge.specs.ImageWords.{IsShortName, name_in, image_names};
ghost use Rattle.run_text.specs.Schedule.{IsInRanges};
ghost use Rattle.command_edge.specs.Command.{Made};
ghost use Rattle.run_opening.specs.Images.{images_found, images_in, IsIn};
ghost use Rattle.run_opening.specs.Schedules.{schedule_lines};
ghost use Rattle.run_opening.specs.Asked.{AsksOpening};
ghost use Rattle.run_opening.specs.Opening.{found_told, EndsOpening, CountsOpen};

use crate::devices::device_fault;
use crate::images::{OpenedImage, open_images};
use crate::schedule::open_schedule;
use command_edge::{Fault, first_images, image_names};
use io_edge::Files;
use std::alloc::Global;
use vm_facts::Event;

/// What a run begins with (this project's profile).
#[derive(Drop)]
pub struct Opening<'a> {
    /// Its images, the one of number 1 first.
    pub images: Vec<OpenedImage<'a>>,
    /// The numbers of the images that the first processes start with, the one of process 1 first.
    pub first: Vec<u32>,
    /// The lines of its schedule.
    pub lines: Vec<Event>,
}

/// Opens what a run's words name, in this order (this project's profile): the schedule is found, and read by
/// one call where it isn't empty, and judged by its grammar; then each image that the words name, in the
/// order of their numbers, is found and judged by its header; then the numbers of blocks of the two swap
/// devices are judged, those of device 0 first. The first fault that is met is the answer. `swap` is the
/// number of blocks of 512 bytes that the run may use.
pub fn open_run<'a, F: Files>(
    alloc: Global,
    files: &mut F,
    schedule: &'a str,
    words: &[&'a str],
    swap: u32,
    zero_blocks: u32,
    one_blocks: u32,
) -> Result<Opening<'a>, Fault<'a>>
    requires few { length words.now ≤ 16 }
    requires swap { swap ≤ most_blocks }
    ensures ends { Made (EndsOpening schedule.now (map (λ word. word.now) words.now) swap zero_blocks one_blocks)
        (found_told schedule.now (map (λ word. word.now) words.now)) (F.holds files.old)
        (record {
          open_before = F.open_faults files.old;
          open_after = F.open_faults files.new;
          page_before = F.page_faults files.old;
          page_after = F.page_faults files.new;
        }) result }

    // The images, as the told files have them.
    ensures loaded { IfOk result (λ opening. (list : List NamedFile) → F.holds files.old ≡ Some list
        → images_found list (image_names (map (λ word. word.now) words.now)) ≡ Ok (images_in list opening.images.items)) }
    ensures are_in { IfOk result (λ opening. (list : List NamedFile) → F.holds files.old ≡ Some list → All (IsIn list) opening.images.items) }
    ensures names { IfOk result (λ opening. map (λ image. image.name.now) opening.images.items ≡ image_names (map (λ word. word.now) words.now)) }
    ensures short { All (λ word. IsShortName (name_in word.now)) words.now
        → IfOk result (λ opening. All (λ image. IsShortName image.name.now) opening.images.items) }
    ensures sound { IfOk result (λ opening. All (λ image. IsSound image.facts) opening.images.items) }
    ensures ranges { IfOk result (λ opening. All (λ image. HasRange (F.holds files.old) image.file 0 (file_length_of image.facts)) opening.images.items) }
    ensures few_images { IfOk result (λ opening. length opening.images.items ≤ length words.now) }
    ensures some_image { 0 < length words.now → IfOk result (λ opening. 0 < length opening.images.items) }

    // The first processes, and the lines of the schedule.
    ensures numbers { IfOk result (λ opening. All (λ number. (1 ≤ number) × (number ≤ length opening.images.items)) opening.first.items) }
    ensures few_first { IfOk result (λ opening. length opening.first.items ≤ length words.now) }
    ensures lines { IfOk result (λ opening. All IsInRanges opening.lines.items) }
    ensures few_lines { IfOk result (λ opening. length opening.lines.items ≤ schedule_lines) }

    // The files, what was asked of them, and their counts of faults.
    ensures asked { AsksOpening schedule.now (image_names (map (λ word. word.now) words.now)) (F.holds files.old) result (F.notes files.old)
        (F.notes files.new) }
    ensures kept { KeepsFiles F.Files files.old files.new }
    ensures open_faults { CountsOpen result (F.open_faults files.old) (F.open_faults files.new) }
    ensures page_faults { F.page_faults files.new ≡ F.page_faults files.old }
{
    let lines = open_schedule(alloc, files, schedule)?;
    let names = image_names(alloc, words)?;
    let first = first_images(alloc, names.as_slice(), words)?;
    let images = open_images(alloc, files, names.as_slice())?;
    if let Some(fault) = device_fault(swap, zero_blocks, one_blocks) {
        return Err(fault);
    }
    Ok(Opening {
        images,
        first,
        lines,
    })
}
