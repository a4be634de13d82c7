//! Transfers of pages in flight: reads and writes that were begun and aren't finished. They complete first in, first
//! out, and the device is called when a transfer completes, in rising order: once for each page that is read, while
//! written pages that lie together are handed to it together (this project's profile). Frames stand in a transfer as
//! tokens, and nobody else may touch them meanwhile.
#![tactic(auto)]

mod moving;
pub mod ring;
pub mod transfer;
mod writing;

pub use ring::TransferRing;
pub use transfer::{Begun, Finished, Inbound, Outbound, Source, Transfer};
