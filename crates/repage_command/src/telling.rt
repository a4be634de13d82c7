//! The words for each reason why a line of a trace can't come.
ghost use Rattle.std.specs.Prelude.{◌≡◌, [], ◌∷◌, ◌++◌, codes, decimal, IfOk, OnOk, option_map};
ghost use Rattle.run_text.specs.Text.{line_of, page_text, rest_of_line};
ghost use Rattle.repage_command.specs.Grammar.{part_line};
ghost use Rattle.replay_command.specs.Explaining.{around_number};
ghost use Rattle.repage_command.specs.Telling.{page_words, around_page, state_words, reason_words, line_text, line_words, misstep_line};

use command_edge::put_number;
use kernel_model::HandPart;
use paged_model::{Line, Reason};
use question_command::entry_line;
use std::alloc::{AllocError, Global};
use vm_facts::{Entry, Page, PageState};

// Puts a number between two texts after another.
fn put_around(
    text: &mut Vec<u8>,
    before: &[u8],
    number: u32,
    behind: &[u8],
) -> Result<(), AllocError>
    ensures { OnOk result (text.new.items ≡ text.old.items ++ around_number before.now number behind.now) }
{
    text.extend_from_slice(before)?;
    put_number(text, number)?;
    text.extend_from_slice(behind)
}

// Puts the number of a page, and that of the space or the image that has it.
fn put_numbers(
    text: &mut Vec<u8>,
    segment: &[u8],
    number: u32,
    owner: &[u8],
    owner_number: u32,
) -> Result<(), AllocError>
    ensures { OnOk result (text.new.items ≡ text.old.items ++ around_number segment.now number owner.now ++ decimal owner_number) }
{
    put_around(text, segment, number, owner)?;
    put_number(text, owner_number)
}

// Puts a page.
fn put_page(text: &mut Vec<u8>, page: Page) -> Result<(), AllocError>
    ensures { OnOk result (text.new.items ≡ text.old.items ++ page_words page) }
{
    match page {
        Page::Data { sid, v } => put_numbers(text, b"data page ", v, b" of space ", sid),
        Page::Stack { sid, v } => put_numbers(text, b"stack page ", v, b" of space ", sid),
        Page::Text { image, v } => put_numbers(text, b"text page ", v, b" of image ", image),
    }
}

// Puts a page between two texts.
fn put_around_page(
    text: &mut Vec<u8>,
    before: &[u8],
    page: Page,
    behind: &[u8],
) -> Result<(), AllocError>
    ensures { OnOk result (text.new.items ≡ text.old.items ++ around_page before.now page behind.now) }
{
    text.extend_from_slice(before)?;
    put_page(text, page)?;
    text.extend_from_slice(behind)
}

// Puts how a page is in a state.
fn put_state(text: &mut Vec<u8>, transfer: u32, state: PageState) -> Result<(), AllocError>
    ensures { OnOk result (text.new.items ≡ text.old.items ++ state_words transfer state) }
{
    match state {
        PageState::Unfilled => text.extend_from_slice(b" isn't valid: it isn't filled yet\n"),
        PageState::Valid(frame) => put_around(text, b" is valid in frame ", frame, b"\n"),
        PageState::Invalid(frame) => {
            put_around(text, b" isn't valid: it is invalid in frame ", frame, b"\n")
        }
        PageState::Coming(_) => {
            put_around(text, b" isn't valid: it is in transfer ", transfer, b"\n")
        }
        PageState::Going(_) => {
            put_around(text, b" isn't valid: it is in transfer ", transfer, b"\n")
        }
        PageState::OnSwap => text.extend_from_slice(b" isn't valid: it is on swap\n"),
    }
}

// Puts a page and its state.
fn put_in_state(
    text: &mut Vec<u8>,
    transfer: u32,
    page: Page,
    state: PageState,
) -> Result<(), AllocError>
    ensures { OnOk result (text.new.items ≡ text.old.items ++ page_words page ++ state_words transfer state) }
{
    put_page(text, page)?;
    put_state(text, transfer, state)
}

// Puts the entry that comes instead.
fn put_comes(alloc: Global, text: &mut Vec<u8>, entry: &Entry) -> Result<(), AllocError>
    ensures { OnOk result (text.new.items ≡ text.old.items ++ codes "the paged machine gives " ++ line_of entry.now) }
{
    let Ok(line) = entry_line(alloc, entry) else {
        return Err(AllocError);
    };
    text.extend_from_slice(b"the paged machine gives ")?;
    text.extend_from_slice(line.as_slice())
}

// Puts a reason, to the end of its line.
fn put_reason(
    alloc: Global,
    text: &mut Vec<u8>,
    transfer: u32,
    reason: &Reason,
) -> Result<(), AllocError>
    ensures { OnOk result (text.new.items ≡ text.old.items ++ reason_words transfer reason.now) }
{
    match reason {
        Reason::NoPage(page) => put_around_page(text, b"there is no ", *page, b"\n"),
        Reason::InState(page, state) => put_in_state(text, transfer, *page, *state),
        Reason::FromFile(page) => {
            put_around_page(text, b"", *page, b" is filled from its image's file\n")
        }
        Reason::OfZeros(page) => put_around_page(text, b"", *page, b" is filled with zeros\n"),
        Reason::DueFirst(page) => put_around_page(text, b"", *page, b" is due first\n"),
        Reason::NoCopyDue(page) => put_around_page(text, b"no copy of ", *page, b" is due\n"),
        Reason::NoFrame => text.extend_from_slice(b"no frame is free\n"),
        Reason::FewFrames(free) => put_around(
            text,
            b"more frames are wanted than the ",
            *free,
            b" that are free\n",
        ),
        Reason::FullFlight => text.extend_from_slice(b"16 transfers are in flight\n"),
        Reason::NoTransfer => text.extend_from_slice(b"no transfer is in flight\n"),
        Reason::WrongLength => text.extend_from_slice(b"a transfer has 1 to 16 pages\n"),
        Reason::NotAmong(page) => {
            put_around_page(text, b"", *page, b" isn't among the pages that are read\n")
        }
        Reason::ReadElsewhere(page) => put_around_page(
            text,
            b"",
            *page,
            b" isn't read from where the wanted page is read from\n",
        ),
        Reason::InOtherChunk(page) => put_around_page(
            text,
            b"",
            *page,
            b" is in another chunk of swap than the first page\n",
        ),
        Reason::Unshared(page) => put_around_page(text, b"no space has ", *page, b"\n"),
        Reason::EnoughFree => text.extend_from_slice(b"a quarter of the frames are free\n"),
        Reason::OfText(page) => put_around_page(text, b"", *page, b" goes out with no process\n"),
        Reason::FrameIsFree(page) => {
            put_around_page(text, b"the frame of ", *page, b" is free\n")
        }
        Reason::IsClean(page) => put_around_page(text, b"", *page, b" is clean\n"),
        Reason::IsDirty(page) => {
            put_around_page(text, b"", *page, b" has to be written first\n")
        }
        Reason::NoHolder(sid) => put_around(text, b"no process holds space ", *sid, b"\n"),
        Reason::NoProcess(pid) => put_around(text, b"there is no process ", *pid, b"\n"),
        Reason::HoldsNone(pid) => put_around(text, b"process ", *pid, b" holds no space\n"),
        Reason::CannotStep(pid) => put_around(text, b"process ", *pid, b" cannot step\n"),
        Reason::Borrowed(pid) => put_around(text, b"process ", *pid, b" borrowed its space\n"),
        Reason::IsOut(pid) => put_around(text, b"process ", *pid, b" is out\n"),
        Reason::IsIn(pid) => put_around(text, b"process ", *pid, b" is in\n"),
        Reason::Unsettled => text.extend_from_slice(b"a transfer has a page of the process\n"),
        Reason::Begun(pid) => put_around(text, b"the step of process ", *pid, b" is begun\n"),
        Reason::Comes(entry) => put_comes(alloc, text, entry),
        Reason::TooMany => text.extend_from_slice(b"more than 1000000 instructions\n"),
    }
}

// Puts a page as a line of a trace has it: the letter of its segment, its space or image, and its number.
#[tactic(auto, using(crate::proofs::LineTexts::data_put, crate::proofs::LineTexts::stack_put, crate::proofs::LineTexts::text_put))]
fn put_page_name(text: &mut Vec<u8>, page: Page) -> Result<(), AllocError>
    ensures { OnOk result (text.new.items ≡ text.old.items ++ page_text page) }
{
    match page {
        Page::Data { sid, v } => put_numbers(text, b" d ", sid, b" ", v),
        Page::Stack { sid, v } => put_numbers(text, b" s ", sid, b" ", v),
        Page::Text { image, v } => put_numbers(text, b" x ", image, b" ", v),
    }
}

// Puts the line of a letter and a page, up to where its numbers stand.
fn put_head(text: &mut Vec<u8>, letter: &[u8], page: Page) -> Result<(), AllocError>
    ensures { OnOk result (text.new.items ≡ text.old.items ++ letter.now ++ page_text page) }
{
    text.extend_from_slice(letter)?;
    put_page_name(text, page)
}

// Puts the line of a letter and a page.
fn put_page_line(text: &mut Vec<u8>, letter: &[u8], page: Page) -> Result<(), AllocError>
    ensures { OnOk result (text.new.items ≡ text.old.items ++ letter.now ++ page_text page ++ codes "\n") }
{
    put_head(text, letter, page)?;
    text.extend_from_slice(b"\n")
}

// Puts the line of a letter, a page and a number.
#[tactic(auto, using(crate::proofs::LineTexts::counted_put))]
fn put_counted_line(text: &mut Vec<u8>, letter: &[u8], page: Page, n: u32) -> Result<(), AllocError>
    ensures { OnOk result (text.new.items ≡ text.old.items ++ letter.now ++ page_text page ++ rest_of_line (n ∷ [])) }
{
    put_head(text, letter, page)?;
    put_around(text, b" ", n, b"\n")
}

// Puts the line of a part of a move of the hands.
fn put_part(text: &mut Vec<u8>, part: &HandPart) -> Result<(), AllocError>
    ensures { OnOk result (text.new.items ≡ text.old.items ++ part_line part.now) }
{
    match part {
        HandPart::Expires { page } => put_page_line(text, b"E", *page),
        HandPart::Writes { lo, n } => put_counted_line(text, b"W", *lo, *n),
        HandPart::Frees { page } => put_page_line(text, b"F", *page),
    }
}

// The line of a part, with its end.
fn part_text(alloc: Global, part: &HandPart) -> Result<Vec<u8>, AllocError>
    ensures { IfOk result (λ text. text.items ≡ part_line part.now) }
{
    let mut text = Vec::new(alloc);
    put_part(&mut text, part)?;
    Ok(text)
}

// A line of a trace, with its end.
fn line_text(alloc: Global, line: &Line) -> Result<Vec<u8>, AllocError>
    ensures { IfOk result (λ text. text.items ≡ line_text line.now) }
{
    match line {
        Line::RunLine(entry) => match entry_line(alloc, entry) {
            Ok(text) => Ok(text),
            Err(_) => Err(AllocError),
        },
        Line::Part(part) => part_text(alloc, part),
    }
}

// Puts a line of a trace, without its end.
fn put_line(alloc: Global, text: &mut Vec<u8>, there: Option<&Line>) -> Result<(), AllocError>
    ensures { OnOk result (text.new.items ≡ text.old.items ++ line_words (option_map (λ line. line.now) there.entry)) }
{
    match there {
        Some(line) => {
            let whole = line_text(alloc, line)?;
            let bytes = whole.as_slice();
            text.extend_from_slice(&bytes[..bytes.len().saturating_sub(1)])
        }
        None => Ok(()),
    }
}

/// The line that tells why the line of this number can't come. A transfer of that number has the frame of the page that isn't valid.
pub(crate) fn misstep_line(
    alloc: Global,
    number: u32,
    there: Option<&Line>,
    transfer: u32,
    reason: &Reason,
) -> Result<Vec<u8>, AllocError>
    ensures { IfOk result (λ text. text.items ≡ misstep_line number (option_map (λ line. line.now) there.entry) transfer reason.now) }
{
    let mut text = Vec::from_slice(alloc, b"vmrun: line ")?;
    put_number(&mut text, number)?;
    text.extend_from_slice(b": ")?;
    put_line(alloc, &mut text, there)?;
    text.extend_from_slice(b": ")?;
    put_reason(alloc, &mut text, transfer, reason)?;
    Ok(text)
}
