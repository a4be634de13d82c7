//! The workload of a number: two images and a schedule. The same number always gives the same bytes.
ghost use Rattle.std.specs.Prelude.{◌≡◌, [], ◌∷◌, Ok, All, IfOk, length, map};
ghost use Rattle.io_edge.specs.FileHolding.{named_file};
ghost use Rattle.aout_image.specs.Image.{judged_image};
ghost use Rattle.run_text.specs.Schedule.{IsInRanges};
ghost use Rattle.load_maker.specs.Load.{load_files, load_lines, load_images, load_sources, AreFilesFrom};

use crate::programs::{v_file, w_file};
use crate::schedule::load_lines;
use std::alloc::Global;
use vm_facts::{Event, NoMemory};

/// The workload of a number (this project's profile): it is run with 128 frames, 8,192 blocks of swap and at most
/// 200,000 instructions, and begins with four processes of `w`.
#[derive(Drop)]
pub struct Load {
    /// The images `w` and `v`, by their names.
    pub files: Vec<(String, Vec<u8>)>,
    /// The 200 lines of the schedule.
    pub lines: Vec<Event>,
}

// The files of the load of this number.
#[tactic(auto, unfolding(crate::specs::Load::load_files))]
fn load_files(alloc: Global, number: u32) -> Result<Vec<(String, Vec<u8>)>, NoMemory>
    ensures { IfOk result (λ files. map named_file files.items ≡ load_files number) }
{
    let pages = 40 + number % 25;
    let mut files = Vec::with_capacity(alloc, 2)?;
    files.push(("w".to_string(alloc)?, w_file(alloc, pages)?))?;
    files.push(("v".to_string(alloc)?, v_file(alloc, pages)?))?;
    Ok(files)
}

/// Makes the workload of a number. The command takes numbers up to 9,999; each other number has a workload too. The
/// files are those that `as` makes of the two sources.
pub fn make_load(alloc: Global, number: u32) -> Result<Load, NoMemory>
    ensures files { IfOk result (λ load. map named_file load.files.items ≡ load_files number) }
    ensures lines { IfOk result (λ load. load.lines.items ≡ load_lines number) }
    ensures sources { IfOk result (λ load. AreFilesFrom (load_sources number) (map named_file load.files.items)) }
    ensures images { IfOk result (λ load. map (λ file. judged_image file.bytes) (map named_file load.files.items) ≡ map Ok (load_images number)) }
    ensures sizes { IfOk result (λ load. map (λ file. length file.bytes) (map named_file load.files.items) ≡ 2048 ∷ 2048 ∷ []) }
    ensures ranges { IfOk result (λ load. All IsInRanges load.lines.items) }
{
    let files = load_files(alloc, number)?;
    let lines = load_lines(alloc, number)?;
    Ok(Load { files, lines })
}
