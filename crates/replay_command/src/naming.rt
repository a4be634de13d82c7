//! Which images words name, and with which of them the first processes start.
ghost use Rattle.std.specs.Prelude.{◌≡◌, ◌<◌, ◌≤◌, ◌^◌, map, length, All, IfOk, IfErr};
ghost use Rattle.command_edge.specs.ImageWords.{name_in, image_names, first_images};
ghost use Rattle.replay_check.specs.Images.{AreNumbers};
ghost use Rattle.command_edge.specs.declared.fault.Fault.TheVariants.{NoMemory};

use command_edge::{Fault, first_images, image_names};
use std::alloc::Global;

/// The names of the images, and the numbers of those that the first processes start with.
#[derive(Drop)]
pub struct Naming<'a> {
    pub names: Vec<&'a str>,
    pub first: Vec<u32>,
}

/// The images that words name. Its only fault is want of memory.
pub fn name_images<'a>(alloc: Global, words: &[&'a str]) -> Result<Naming<'a>, Fault<'a>>
    requires few { length words.now < 2 ^ 31 }
    requires names { All (λ word. length (name_in word.now) < 64) words.now }
    ensures names { IfOk result (λ naming. map (λ name. name.now) naming.names.items ≡ image_names (map (λ word. word.now) words.now)) }
    ensures first { IfOk result
        (λ naming. naming.first.items ≡ first_images (image_names (map (λ word. word.now) words.now)) (map (λ word. word.now) words.now)) }
    ensures few { IfOk result (λ naming. length naming.names.items < 2 ^ 31) }
    ensures count { IfOk result (λ naming. length naming.names.items ≤ length words.now) }
    ensures short { IfOk result (λ naming. All (λ name. length name.now < 64) naming.names.items) }
    ensures range { IfOk result (λ naming. AreNumbers (length naming.names.items) naming.first.items) }
    ensures error { IfErr result (λ fault. fault ≡ NoMemory) }
{
    let Ok(names) = image_names(alloc, words) else {
        return Err(Fault::NoMemory);
    };
    let Ok(first) = first_images(alloc, names.as_slice(), words) else {
        return Err(Fault::NoMemory);
    };
    Ok(Naming { names, first })
}
