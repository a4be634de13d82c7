//! The six lines that tell what a load counted.
ghost use Rattle.std.specs.Prelude.{◌≡◌, ◌++◌, IfOk, OnOk};
ghost use Rattle.command_edge.specs.Ending.{numbered_line};
ghost use Rattle.load_maker.specs.Counts.{load_text};

use crate::counts::Counts;
use itoa::Buffer;
use std::alloc::{AllocError, Global};
use vm_facts::NoMemory;

// Puts a line of words and a number.
fn put_line(text: &mut Vec<u8>, words: &[u8], number: u128) -> Result<(), AllocError>
    ensures { OnOk result (text.new.items ≡ text.old.items ++ numbered_line words.now number) }
{
    let mut digits = Buffer::new();
    text.extend_from_slice(words)?;
    text.extend_from_slice(digits.format(number).as_bytes())?;
    text.push(b'\n')?;
    Ok(())
}

/// The text of a load that ran to its end: six lines, its number and the counts of its journal.
#[tactic(auto, unfolding(crate::specs::Counts::load_text))]
pub fn load_text(alloc: Global, number: u32, counts: Counts) -> Result<Vec<u8>, NoMemory>
    ensures { IfOk result (λ text. text.items ≡ load_text number counts) }
{
    let mut text = Vec::new(alloc);
    put_line(&mut text, b"load ", u128::from(number))?;
    put_line(&mut text, b"instructions ", counts.instructions)?;
    put_line(&mut text, b"processes ", counts.processes)?;
    put_line(&mut text, b"ended ", counts.ended)?;
    put_line(&mut text, b"refused ", counts.refused)?;
    put_line(&mut text, b"bytes out ", counts.bytes_out)?;
    Ok(text)
}
