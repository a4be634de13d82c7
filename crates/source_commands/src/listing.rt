//! `dis`: an image is read, and its instructions listed up to the first place without one.
ghost use Rattle.std.specs.Prelude.{◌≡◌, ◌≤◌, ◌<◌, ◌+◌, ◌^◌, ◌/◌, Bool, IfOk, length, min};
ghost use Rattle.io_edge.specs.Calls.{KeepsFiles};
ghost use Rattle.aout_image.specs.Image.{IsSound, file_length_of, pages_of, offset_of, given_of};
ghost use Rattle.command_edge.specs.Told.{image_told};
ghost use Rattle.command_edge.specs.Ending.{ending_of};
ghost use Rattle.command_edge.specs.Command.{EndCounted, Made};
ghost use Rattle.source_commands.specs.Listing.{IsListing, code_at};
ghost use Rattle.source_commands.specs.Command.{Lists, EndsListing};

use crate::text::listing_of;
use aout_image::Image;
use command_edge::{Fault, load_image, write_ending};
use io_edge::{Files, Sink};
use std::alloc::{AllocError, Global};

// Where the byte of a segment stands in the file.
fn place_in(image: &Image, text: bool, at: u32) -> u64
    requires sound { IsSound image.now }
    requires within { at / 1024 < pages_of text image.now }
    ensures { result ≡ offset_of text image.now + min at (given_of text image.now) }
{
    let (offset, count) = image.file_span(text, at / 1024);
    offset + u64::from((at % 1024).min(count))
}

// The bytes from the first instruction on that the file gives to its segment.
fn code_of<'a>(image: &Image, bytes: &'a [u8]) -> &'a [u8]
    requires sound { IsSound image.now }
    requires size { length bytes.now ≡ file_length_of image.now }
    ensures { result.now ≡ code_at image.now bytes.now (image.now.entry + 2) }
{
    let at = image.entry + 2;
    let data_start = image.data_start();
    if at < data_start {
        let start = place_in(image, true, at);
        let end = image.file_length() - u64::from(image.data_len);
        &bytes[start as usize..end as usize]
    } else {
        let start = place_in(image, false, at - data_start);
        &bytes[start as usize..]
    }
}

// The listing of an image, whose file has these bytes.
fn listing_in(alloc: Global, image: &Image, bytes: &[u8]) -> Result<Vec<u8>, AllocError>
    requires sound { IsSound image.now }
    requires size { length bytes.now ≡ file_length_of image.now }
    ensures { IfOk result (λ listing. IsListing (image.now.entry + 2) (code_at image.now bytes.now (image.now.entry + 2)) listing.items) }
{
    let code = code_of(image, bytes);
    listing_of(alloc, code, image.entry + 2)
}

// The listing of the image of this name.
fn listing_from<'a, F: Files>(
    alloc: Global,
    files: &mut F,
    name: &'a str,
) -> Result<Vec<u8>, Fault<'a>>
    ensures made { Made (EndsListing name.now) (λ list. image_told list name.now) (F.holds files.old)
        (record {
          open_before = F.open_faults files.old;
          open_after = F.open_faults files.new;
          page_before = F.page_faults files.old;
          page_after = F.page_faults files.new;
        }) (ending_of result) }
    ensures counted { EndCounted (ending_of result) (record {
      open_before = F.open_faults files.old;
      open_after = F.open_faults files.new;
      page_before = F.page_faults files.old;
      page_after = F.page_faults files.new;
    }) }
    ensures kept { KeepsFiles F.Files files.old files.new }
{
    let loaded = match load_image(alloc, files, name) {
        Ok(loaded) => loaded,
        Err(unread) => return Err(Fault::of_unread(name, unread)),
    };
    match listing_in(alloc, &loaded.image, loaded.bytes.as_slice()) {
        Ok(listing) => Ok(listing),
        Err(_) => Err(Fault::NoMemory),
    }
}

/// Lists the instructions of the image of this name, from its first one to the first place without
/// one, and answers the exit status: 0 where the listing was written; 2 an absent file; 3 no image; 5
/// a file fault; 8 a fault of the output; 9 want of memory. At any other status than 0 and 8 the line
/// of the fault is written instead (this project's profile).
pub fn list_file<F: Files, S: Sink>(alloc: Global, files: &mut F, sink: &mut S, name: &str) -> u8
    ensures lists { Lists name.now (F.holds files.old)
        (record {
          open_before = F.open_faults files.old;
          open_after = F.open_faults files.new;
          page_before = F.page_faults files.old;
          page_after = F.page_faults files.new;
        })
        (S.written sink.old) (S.written sink.new) (S.faults sink.old) (S.faults sink.new) result }
    ensures kept { KeepsFiles F.Files files.old files.new }
    ensures sink_leads { S.leads sink.old sink.new }
{
    let made = listing_from(alloc, files, name);
    write_ending(alloc, sink, made)
}
