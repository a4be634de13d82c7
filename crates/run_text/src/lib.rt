//! The texts of a run: schedules, which are read, and the lines of a journal, which are written to a
//! sink and read.
#![tactic(auto)]

mod answers;
mod buffer;
mod entry_reader;
mod hex;
mod limits;
mod line;
mod numbers;
mod pieces;
mod ranges;
mod schedule_reader;
mod text;
mod transcript_reader;
mod waiting;
mod writer;

pub use answers::{Schedule, Transcript};
pub use entry_reader::{page_from, read_entry_line};
pub use limits::{LAST_PROCESS, MOST_MOVES, MOST_TURN, SCHEDULE_LINES, limits_are_documented};
pub use line::{put_named, put_page};
pub use numbers::{Numbers, read_numbers};
pub use pieces::{first_line, read_decimal, strip_end, strip_front};
pub use ranges::have_numbers;
pub use schedule_reader::read_schedule;
pub use text::{write_entry, write_text};
pub use transcript_reader::read_transcript;
pub use writer::Writer;
