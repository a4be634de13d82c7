//! An image of a run: its name, its file's number, and what its header says. A machine asks for a file by the number,
//! never by the name.
use aout_image::Image;

/// An image: its name, the number of its file, and what its header says.
#[derive(Drop)]
pub struct Named {
    pub name: String,
    pub file: u32,
    pub facts: Image,
}
