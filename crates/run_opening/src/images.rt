//! Opens the images of a run in their order, up to the first fault.
ghost use Rattle.std.specs.Prelude.{◌≡◌, List, Some, Err, true, is_err, All, IfOk, IfErr, map};
ghost use Rattle.io_edge.specs.Calls.{KeepsFiles};
ghost use Rattle.io_edge.specs.FileHolding.{NamedFile, HasRange};
ghost use Rattle.aout_image.specs.Image.{IsSound, file_length_of};
ghost use Rattle.command_edge.specs.Named.{AnswersNamed};
ghost use Rattle.command_edge.specs.Asked.{AsksFront};
ghost use Rattle.run_opening.specs.Asked.{header_bytes, IsAbout, AsksImages};
ghost use Rattle.run_opening.specs.Images.{image_found, images_found, image_in, images_in, IsIn, IsImageFault};
ghost use Rattle.run_opening.specs.Opening.{CountsOpen};

use aout_image::Image;
use command_edge::{Fault, open_image};
use io_edge::Files;
use std::alloc::Global;

/// An image that was found and judged, by its name.
#[derive(Clone, Copy, Debug, Drop)]
pub struct OpenedImage<'a> {
    /// Its name, without the sign before it in a word.
    pub name: &'a str,
    /// The number by which its file is read.
    pub file: u32,
    /// What its header says.
    pub facts: Image,
}

// The image of this name.
fn open_named<'a, F: Files>(
    alloc: Global,
    files: &mut F,
    name: &'a str,
) -> Result<OpenedImage<'a>, Fault<'a>>
    ensures answers { (list : List NamedFile) → F.holds files.old ≡ Some list
        → AnswersNamed (image_in list) (image_found list name.now) result }
    ensures is_in { IfOk result (λ image. (list : List NamedFile) → F.holds files.old ≡ Some list → IsIn list image) }
    ensures name { IfOk result (λ image. image.name ≡ name.entry) }
    ensures range { IfOk result (λ image. HasRange (F.holds files.old) image.file 0 (file_length_of image.facts)) }
    ensures sound { IfOk result (λ image. IsSound image.facts) }
    ensures error { IfErr result IsImageFault }
    ensures about { IfErr result (λ fault. IsAbout fault name.now) }
    ensures asked { AsksFront name.now (F.holds files.old) header_bytes (is_err result ≡ true) (result ≡ Err Fault.NoMemory) (F.notes files.old)
        (F.notes files.new) }
    ensures kept { KeepsFiles F.Files files.old files.new }
    ensures open_faults { CountsOpen result (F.open_faults files.old) (F.open_faults files.new) }
    ensures page_faults { F.page_faults files.new ≡ F.page_faults files.old }
{
    match open_image(alloc, files, name) {
        Ok(opened) => Ok(OpenedImage {
            name,
            file: opened.file,
            facts: opened.image,
        }),
        Err(unread) => Err(Fault::of_unread(name, unread)),
    }
}

/// The images of these names, in their order; or the fault of the first that can't be opened.
pub fn open_images<'a, F: Files>(
    alloc: Global,
    files: &mut F,
    names: &[&'a str],
) -> Result<Vec<OpenedImage<'a>>, Fault<'a>>
    ensures answers { (list : List NamedFile) → F.holds files.old ≡ Some list
        → AnswersNamed (λ images. images_in list images.items) (images_found list (map (λ name. name.now) names.now)) result }
    ensures are_in { IfOk result (λ images. (list : List NamedFile) → F.holds files.old ≡ Some list → All (IsIn list) images.items) }
    ensures names { IfOk result (λ images. map (λ image. image.name) images.items ≡ names.now) }
    ensures ranges { IfOk result (λ images. All (λ image. HasRange (F.holds files.old) image.file 0 (file_length_of image.facts)) images.items) }
    ensures sound { IfOk result (λ images. All (λ image. IsSound image.facts) images.items) }
    ensures error { IfErr result IsImageFault }
    ensures asked { AsksImages result (map (λ name. name.now) names.now) (F.holds files.old) (F.notes files.old) (F.notes files.new) }
    ensures kept { KeepsFiles F.Files files.old files.new }
    ensures open_faults { CountsOpen result (F.open_faults files.old) (F.open_faults files.new) }
    ensures page_faults { F.page_faults files.new ≡ F.page_faults files.old }
{
    let mut images = Vec::new(alloc);
    for &name in names {
        let image = open_named(alloc, files, name)?;
        let Ok(()) = images.push(image) else {
            return Err(Fault::NoMemory);
        };
    }
    Ok(images)
}
