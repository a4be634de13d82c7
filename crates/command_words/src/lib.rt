//! What the words of a command line ask for.
#![tactic(auto)]

mod command;
mod explaining;
mod image_words;
mod limits;
mod reasons;
mod word;

pub use command::{Command, Comparison, FilmSteps, Numbers, read_words};
pub use explaining::explain_words;
pub use image_words::ImageWords;
pub use limits::{
    JOURNAL_ENTRIES, LAST_LOAD, LEAST_FRAMES, LEAST_SWAP, MOST_COMPARED, MOST_FRAMES, MOST_LIMIT,
    MOST_SHORT_LIMIT, MOST_SWAP, ranges_are_documented,
};
pub use reasons::{Argument, BadWord, bad_word, refused_words_have_reasons};
