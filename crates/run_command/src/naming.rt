//! Images that were opened, as a machine has them: with names of their own and numbers for their files.
ghost use Rattle.std.specs.Prelude.{◌≡◌, length, map, IfOk};
ghost use Rattle.machine_state.specs.Machine.{image_shown};
ghost use Rattle.run_command.specs.Naming.{shown_as};

use machine_state::Named;
use run_opening::OpenedImage;
use std::alloc::{AllocError, Global};

/// The images that were opened, each with its name of its own.
pub fn name_images(alloc: Global, images: &[OpenedImage<'_>]) -> Result<Vec<Named>, AllocError>
    ensures shown { IfOk result (λ named. map image_shown named.items ≡ map shown_as images.now) }
    ensures count { IfOk result (λ named. length named.items ≡ length images.now) }
    ensures facts { IfOk result (λ named. map (λ image. image.facts) named.items ≡ map (λ image. image.facts) images.now) }
{
    let mut named = Vec::new(alloc);
    for image in images {
        named.push(Named {
            name: image.name.to_string(alloc)?,
            file: image.file,
            facts: image.facts,
        })?;
    }
    Ok(named)
}
