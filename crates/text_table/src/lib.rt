//! The text table: how many spaces share each image's text, and which of its pages are saved on swap
//! (the 4.3BSD book; one entry for each of 16 images is this project's profile).
//!
//! The marks of an entry are a bitmap, so the table has a fixed size and takes no memory. Each call
//! takes the same time whatever the table holds.
#![tactic(auto)]

mod entry;
mod page_set;
mod table;

pub use table::TextTable;
