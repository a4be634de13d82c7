//! The single lines of the answers: counts, victims, sizes, policies, references.
ghost use Rattle.std.specs.Prelude.{◌≡◌, ◌<◌, ◌^◌, ◌++◌, length, OnOk, codes, decimal};
ghost use Rattle.std.specs.List.{flat_map};
ghost use Rattle.std.specs.Option.{option_copied};
ghost use Rattle.run_text.specs.Text.{page_text, part};
ghost use Rattle.command_edge.specs.Ending.{numbered_line};
ghost use Rattle.reference_answers.specs.Numbers.{page_numbered};
ghost use Rattle.reference_answers.specs.Grammar.{page_word};
ghost use Rattle.reference_answers.specs.Texts.{victim_line, size_lines, reference_line, policies_line};

use command_edge::put_number;
use page_opt::Victim;
use std::alloc::AllocError;
use vm_facts::Page;

/// Puts words and a number as a line.
pub(crate) fn put_numbered_line(
    text: &mut Vec<u8>,
    words: &[u8],
    number: u32,
) -> Result<(), AllocError>
    ensures { OnOk result (text.new.items ≡ text.old.items ++ numbered_line words.now number) }
{
    text.extend_from_slice(words)?;
    put_number(text, number)?;
    text.push(b'\n')?;
    Ok(())
}

/// Puts the lines of victims, whose pages have numbers among pages.
pub(crate) fn put_victims(
    text: &mut Vec<u8>,
    pages: &[Page],
    victims: &[Victim],
) -> Result<(), AllocError>
    ensures { OnOk result (text.new.items ≡ text.old.items ++ flat_map (victim_line pages.now) victims.now) }
{
    for victim in victims {
        put_victim(text, pages, *victim)?;
    }
    Ok(())
}

/// Puts the line of a victim, whose page has a number among pages.
fn put_victim(text: &mut Vec<u8>, pages: &[Page], victim: Victim) -> Result<(), AllocError>
    ensures { OnOk result (text.new.items ≡ text.old.items ++ victim_line pages.now victim) }
{
    text.extend_from_slice(b"v ")?;
    put_number(text, victim.at)?;
    if let Some(page) = page_numbered(pages, victim.page) {
        put_page(text, *page)?;
    }
    text.push(b'\n')?;
    Ok(())
}

/// Puts a line for each size of memory from 1 page on, with the faults at it.
pub(crate) fn put_sizes(text: &mut Vec<u8>, curve: &[u32]) -> Result<(), AllocError>
    requires { length curve.now < 2 ^ 32 }
    ensures { OnOk result (text.new.items ≡ text.old.items ++ size_lines 1 curve.now) }
{
    let mut size = 0;
    for faults in curve {
        size += 1;
        put_size(text, size, *faults)?;
    }
    Ok(())
}

/// Puts the line of a size and its faults.
fn put_size(text: &mut Vec<u8>, size: u32, faults: u32) -> Result<(), AllocError>
    ensures { OnOk result (text.new.items ≡ text.old.items ++ decimal size ++ part faults ++ codes "\n") }
{
    put_number(text, size)?;
    put_part(text, faults)?;
    text.push(b'\n')?;
    Ok(())
}

/// Puts the line of a number of frames: each policy with its faults.
pub(crate) fn put_policies_line(
    text: &mut Vec<u8>,
    frames: u32,
    fifo: u32,
    clock: u32,
    hands: u32,
    lru: u32,
    least: u32,
) -> Result<(), AllocError>
    ensures { OnOk result (text.new.items ≡ text.old.items ++ policies_line frames fifo clock hands lru least) }
{
    put_number(text, frames)?;
    put_named_number(text, b" fifo", fifo)?;
    put_named_number(text, b" clock", clock)?;
    put_named_number(text, b" hands", hands)?;
    put_named_number(text, b" lru", lru)?;
    put_named_number(text, b" least", least)?;
    text.push(b'\n')?;
    Ok(())
}

/// Puts words, and a number after a space.
fn put_named_number(text: &mut Vec<u8>, words: &[u8], number: u32) -> Result<(), AllocError>
    ensures { OnOk result (text.new.items ≡ text.old.items ++ words.now ++ part number) }
{
    text.extend_from_slice(words)?;
    put_part(text, number)
}

/// Puts references, one a line.
pub(crate) fn put_references(text: &mut Vec<u8>, refs: &[Page]) -> Result<(), AllocError>
    ensures { OnOk result (text.new.items ≡ text.old.items ++ flat_map reference_line refs.now) }
{
    for page in refs {
        put_reference(text, *page)?;
    }
    Ok(())
}

/// Puts the line of a reference.
fn put_reference(text: &mut Vec<u8>, page: Page) -> Result<(), AllocError>
    ensures { OnOk result (text.new.items ≡ text.old.items ++ reference_line page) }
{
    put_word(text, page)?;
    text.push(b'\n')?;
    Ok(())
}

/// Puts a page.
fn put_word(text: &mut Vec<u8>, page: Page) -> Result<(), AllocError>
    ensures { OnOk result (text.new.items ≡ text.old.items ++ page_word page) }
{
    match page {
        Page::Data { sid, v } => put_named(text, b"d", sid, v),
        Page::Stack { sid, v } => put_named(text, b"s", sid, v),
        Page::Text { image, v } => put_named(text, b"x", image, v),
    }
}

/// The page with a number among pages, where there is one.
fn page_numbered(pages: &[Page], number: u32) -> Option<&Page>
    ensures { option_copied result ≡ page_numbered pages.now number }
{
    let place = number.checked_sub(1)?;
    pages.get(place as usize)
}

/// Puts a page after a space.
fn put_page(text: &mut Vec<u8>, page: Page) -> Result<(), AllocError>
    ensures { OnOk result (text.new.items ≡ text.old.items ++ page_text page) }
{
    match page {
        Page::Data { sid, v } => put_named(text, b" d", sid, v),
        Page::Stack { sid, v } => put_named(text, b" s", sid, v),
        Page::Text { image, v } => put_named(text, b" x", image, v),
    }
}

/// Puts a segment's letter, and the two numbers of a page's name.
fn put_named(text: &mut Vec<u8>, name: &[u8], owner: u32, v: u32) -> Result<(), AllocError>
    ensures { OnOk result (text.new.items ≡ text.old.items ++ name.now ++ part owner ++ part v) }
{
    text.extend_from_slice(name)?;
    put_part(text, owner)?;
    put_part(text, v)
}

/// Puts a number after a space.
fn put_part(text: &mut Vec<u8>, number: u32) -> Result<(), AllocError>
    ensures { OnOk result (text.new.items ≡ text.old.items ++ part number) }
{
    text.push(b' ')?;
    put_number(text, number)
}
