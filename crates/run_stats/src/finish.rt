//! How a finished run came to its end, as the last row of the table.
ghost use Rattle.std.specs.Prelude.{◌≡◌, ◌++◌, OnOk};
ghost use Rattle.run_stats.specs.Finishing.{finish_words, finish_row};

use crate::rows::put_plain;
use std::alloc::AllocError;

/// How a finished run came to its end (this project's profile).
#[derive(Clone, Copy, Debug, PartialEq, Eq, Drop)]
pub enum Finish {
    /// All lines of its schedule were read, and no process can step.
    Over,
    /// As many instructions ran as may, and a line is left, or a process that can step.
    Cut,
}

fn finish_words(finish: Finish) -> &'static [u8]
    ensures { result.now ≡ finish_words finish }
{
    match finish {
        Finish::Over => b"run over ",
        Finish::Cut => b"run cut ",
    }
}

/// Puts the last row of the table: how a run of so many instructions came to its end (this project's profile). The one error is that no
/// memory is left.
pub fn put_finish(text: &mut Vec<u8>, finish: Finish, instructions: u32) -> Result<(), AllocError>
    ensures { OnOk result (text.new.items ≡ text.old.items ++ finish_row finish instructions) }
{
    put_plain(text, finish_words(finish), u128::from(instructions))
}
