//! What a run reads before it begins: its schedule, the headers of its images, and the sizes of its swap devices.
#![tactic(auto)]

mod devices;
mod images;
mod opening;
mod schedule;

pub use devices::device_fault;
pub use images::{OpenedImage, open_images};
pub use opening::{Opening, open_run};
pub use schedule::{SCHEDULE_BYTES, open_schedule, schedule_bytes_are_documented};
