//! The edge of a command: the files that its words name are found, judged and read; and it ends with what it made, or with the line of
//! its fault, and the exit status of either.
#![tactic(auto)]

mod answers;
mod fault;
mod image_words;
mod lines;
mod loading;
mod reading;
mod writing;

pub use answers::{Loaded, Opened, Unread};
pub use fault::Fault;
pub use image_words::{first_images, image_names};
pub use lines::{Line, NO_MEMORY, absent_line, not_image_line, numbered_line, put_number};
pub use loading::{load_image, open_image};
pub use reading::{read_file, read_whole};
pub use writing::write_ending;
