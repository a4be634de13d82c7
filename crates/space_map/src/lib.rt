//! Where the pages of a space are: for each page of its text, data and stack one entry, packed as a word of the VAX
//! (the 4.3BSD book). Only making a map and growing a segment take memory; to look a page up or move it takes the
//! same time for every page. It knows a frame by its number alone; what a frame holds is for the core map to say.
#![tactic(auto)]

mod page_table;
mod space;

pub use space::SpaceMap;
