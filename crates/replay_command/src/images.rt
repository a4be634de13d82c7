//! Reads the images that words name, whole; the first that can't be read is the fault.
ghost use Rattle.std.specs.Prelude.{◌≡◌, ◌<◌, ℕ, List, Some, map, length, All, IfOk};
ghost use Rattle.io_edge.specs.Calls.{KeepsFiles};
ghost use Rattle.io_edge.specs.FileHolding.{NamedFile};
ghost use Rattle.command_edge.specs.Told.{image_told};
ghost use Rattle.replay_check.specs.Images.{IsImageFile};
ghost use Rattle.command_edge.specs.Named.{AnswersNamed};
ghost use Rattle.replay_command.specs.Reading.{FaultsBy, flat_in, images_told};

use command_edge::{Fault, load_image};
use io_edge::Files;
use replay_check::Flat;
use std::alloc::Global;

// The image of this name.
fn load_flat<'a, F: Files>(alloc: Global, files: &mut F, name: &'a str) -> Result<Flat, Fault<'a>>
    requires { length name.now < 64 }
    ensures answers { (list : List NamedFile) → F.holds files.old ≡ Some list
        → AnswersNamed (λ flat. flat) (flat_in name.now (image_told list name.now)) result }
    ensures image { IfOk result IsImageFile }
    ensures named { IfOk result (λ flat. flat.name ≡ name.now) }
    ensures kept { KeepsFiles F.Files files.old files.new }
    ensures faults { FaultsBy result (record {
      open_before = F.open_faults files.old;
      open_after = F.open_faults files.new;
      page_before = F.page_faults files.old;
      page_after = F.page_faults files.new;
    }) }
{
    let loaded = match load_image(alloc, files, name) {
        Ok(loaded) => loaded,
        Err(unread) => return Err(Fault::of_unread(name, unread)),
    };
    match name.to_string(alloc) {
        Ok(name) => Ok(Flat {
            name,
            bytes: loaded.bytes,
        }),
        Err(_) => Err(Fault::NoMemory),
    }
}

/// The images of these names, in their order; or the fault of the first that can't be read.
#[tactic(auto, using(crate::proofs::NameLists::names_more))]
pub fn load_images<'a, F: Files>(
    alloc: Global,
    files: &mut F,
    names: &[&'a str],
) -> Result<Vec<Flat>, Fault<'a>>
    requires { All (λ name. length name.now < 64) names.now }
    ensures answers { (list : List NamedFile) → F.holds files.old ≡ Some list
        → AnswersNamed (λ images. images.items) (images_told list (map (λ name. name.now) names.now)) result }
    ensures images { IfOk result (λ images. All IsImageFile images.items) }
    ensures count { IfOk result (λ images. length images.items ≡ length names.now) }
    ensures named { IfOk result (λ images. map (λ image. image.name) images.items ≡ map (λ name. name.now) names.now) }
    ensures kept { KeepsFiles F.Files files.old files.new }
    ensures faults { FaultsBy result (record {
      open_before = F.open_faults files.old;
      open_after = F.open_faults files.new;
      page_before = F.page_faults files.old;
      page_after = F.page_faults files.new;
    }) }
{
    let mut images = Vec::new(alloc);
    for &name in names {
        let image = load_flat(alloc, files, name)?;
        if images.push(image).is_err() {
            return Err(Fault::NoMemory);
        }
    }
    Ok(images)
}
