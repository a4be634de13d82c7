//! The words of a replay of what a run's words wrote.
ghost use Rattle.std.specs.Prelude.{◌≡◌, map, IfOk};
ghost use Rattle.command_words.specs.Asked.{asked_of};
ghost use Rattle.vmrun_callers.specs.Replayed.{replay_words};

use command_words::{Command, read_words};
use std::alloc::{AllocError, Global};

/// The words that ask for a replay of this transcript over the images with which words ask for a run; over none where these
/// ask for no run.
pub(crate) fn replay_words<'a>(
    alloc: Global,
    words: &'a [&'a str],
    transcript: &'a str,
) -> Result<Vec<&'a str>, AllocError>
    ensures { IfOk result (λ asked. map (λ word. word.now) asked.items ≡ replay_words transcript.now (asked_of (map (λ word. word.now) words.now))) }
{
    let mut asked = Vec::new(alloc);
    asked.push("replay")?;
    asked.push(transcript)?;
    if let Some(Command::Run { images, .. }) = read_words(words) {
        let images = images.to_vec(alloc)?;
        asked.extend_from_slice(images.as_slice())?;
    }
    Ok(asked)
}
