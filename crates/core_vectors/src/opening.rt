//! The images of a case, found among its files and judged as a run judges them.
ghost use Rattle.std.specs.Prelude.{◌≡◌, ◌+◌, ◌<◌, ◌≤◌, length, map, IfOk, [], ◌∷◌};
ghost use Rattle.core_vectors.specs.Ready.{AreFit};

use crate::cases::ImageFile;
use crate::running::Unfit;
use command_edge::open_image;
use io_edge::Files;
use machine_state::Named;
use std::alloc::{AllocError, Global};

// The bytes of the last image of this name.
fn bytes_of<'a>(images: &'a [ImageFile], name: &str) -> Option<&'a [u8]> {
    let mut found = None;
    for image in images {
        if image.name.as_str() == name {
            found = Some(image.bytes.as_slice());
        }
    }
    found
}

/// The images of these names, as files.
pub fn files_named(
    alloc: Global,
    known: &[ImageFile],
    names: &[&str],
) -> Result<Vec<(String, Vec<u8>)>, AllocError> {
    let mut files = Vec::new(alloc);
    for name in names {
        if let Some(bytes) = bytes_of(known, name) {
            files.push((name.to_string(alloc)?, Vec::from_slice(alloc, bytes)?))?;
        }
    }
    Ok(files)
}

// An image, found among the files and judged.
fn open<F: Files>(alloc: Global, files: &mut F, name: &str) -> Result<Named, Unfit>
    ensures fit { IfOk result (λ image. AreFit (image ∷ []) (F.holds files.new)) }
    ensures holds { F.holds files.new ≡ F.holds files.old }
{
    if name.is_empty() || name.len() > 63 {
        return Err(Unfit::Image);
    }
    let Ok(opened) = open_image(alloc, files, name) else {
        return Err(Unfit::Image);
    };
    Ok(Named {
        name: name.to_string(alloc)?,
        file: opened.file,
        facts: opened.image,
    })
}

/// The images of these names.
pub fn open_all<F: Files>(alloc: Global, files: &mut F, names: &[&str]) -> Result<Vec<Named>, Unfit>
    ensures { IfOk result (λ images. AreFit images.items (F.holds files.new)) }
{
    let mut images = Vec::new(alloc);
    for name in names {
        let image = open(alloc, files, name)?;
        let Ok(()) = images.push(image) else {
            return Err(Unfit::NoMemory);
        };
    }
    Ok(images)
}
