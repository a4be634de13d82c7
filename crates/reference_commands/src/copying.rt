//! Copies of the images, as files for a run in memory.
ghost use Rattle.std.specs.Prelude.{◌≡◌, length, map, IfOk};
ghost use Rattle.io_edge.specs.FileHolding.{named_file};
ghost use Rattle.io_edge.specs.Octets.{IsOctetFile, AreOctetFiles};
ghost use Rattle.reference_commands.specs.InMemory.{file_of};

use crate::octets::are_octets;
use replay_check::Flat;
use std::alloc::{AllocError, Global};

// The name of an image, and a copy of its bytes.
fn copy_of(alloc: Global, image: &Flat) -> Result<(String, Vec<u8>), AllocError>
    ensures file { IfOk result (λ file. named_file file ≡ file_of image.now) }
    ensures octets { IfOk result (λ file. IsOctetFile (named_file file)) }
{
    let name = image.name.as_str();
    let bytes = image.bytes.as_slice();
    are_octets(name.as_bytes());
    are_octets(bytes);
    Ok((name.to_string(alloc)?, Vec::from_slice(alloc, bytes)?))
}

/// The files of these images, in their order.
#[tactic(auto, using(crate::proofs::Copies::files_more, crate::proofs::Copies::octets_more))]
pub fn files_of(alloc: Global, images: &[Flat]) -> Result<Vec<(String, Vec<u8>)>, AllocError>
    ensures files { IfOk result (λ files. map named_file files.items ≡ map file_of images.now) }
    ensures octets { IfOk result (λ files. AreOctetFiles (map named_file files.items)) }
{
    let mut files = Vec::new(alloc);
    for image in images {
        files.push(copy_of(alloc, image)?)?;
    }
    Ok(files)
}
