//! Finds images and judges them by their headers; reads the rest where that is wanted.
ghost use Rattle.std.specs.Prelude.{◌≡◌, ◌≤◌, ◌-◌, ℕ, List, Some, Err, true, is_err, IfOk, IfErr, OnOk, min, length, take, drop};
ghost use Rattle.io_edge.specs.Calls.{KeepsFiles};
ghost use Rattle.io_edge.specs.FileHolding.{NamedFile, place_of, bytes_at, HasRange, HoldsRange};
ghost use Rattle.io_edge.specs.FileRequests.{after_requests};
ghost use Rattle.io_edge.specs.Transfer.{CountsErr, range_asked};
ghost use Rattle.aout_image.specs.Image.{IsSound, file_length_of, judged_image, judged_of};
ghost use Rattle.command_edge.specs.Answering.{Answers, CountsFault, CountsFaults, FailsInOrder, IsFailure, IsOfFoundFile};
ghost use Rattle.command_edge.specs.Asked.{AsksFront, FrontMade, RestMade};
ghost use Rattle.command_edge.specs.Looks.{AsksImage, IsUnfit, IsUnread, LoadMade};
ghost use Rattle.command_edge.specs.Told.{facts_in, facts_told, image_told, image_in, IsImageOf};

use crate::answers::{Headed, Loaded, Opened, Unread};
use crate::reading::read_front;
use aout_image::{Judged, read_image};
use io_edge::{Failed, Files, Found, read_range};
use std::alloc::Global;

// Fills bytes after a header with those of the file there; none need no call.
fn read_behind<F: Files>(files: &mut F, id: u32, bytes: &mut [u8]) -> Result<(), Failed>
    requires above { 32 ≤ length bytes.old }
    requires range { HasRange (F.holds files.old) id 0 (length bytes.old) }
    ensures head { take 32 bytes.new ≡ take 32 bytes.old }
    ensures rest { OnOk result (HoldsRange (F.holds files.old) id 32 (drop 32 bytes.new)) }
    ensures notes { F.notes files.new ≡ after_requests (range_asked id 32 (length bytes.old - 32)) (F.notes files.old) }
    ensures kept { KeepsFiles F.Files files.old files.new }
    ensures open_faults { F.open_faults files.new ≡ F.open_faults files.old }
    ensures page_faults { CountsErr result (F.page_faults files.old) (F.page_faults files.new) }
{
    read_range(files, id, 32, &mut bytes[32..])
}

// The bytes of a file's front, up to this length, of which the header was read.
fn read_rest<F: Files>(files: &mut F, id: u32, head: Vec<u8>, len: usize) -> Result<Vec<u8>, Unread>
    requires head { length head.items ≡ 32 }
    requires above { 32 ≤ len }
    requires range { HasRange (F.holds files.old) id 0 len }
    ensures head { IfOk result (λ bytes. take 32 bytes.items ≡ head.items) }
    ensures rest { IfOk result (λ bytes. HoldsRange (F.holds files.old) id 32 (drop 32 bytes.items)) }
    ensures size { IfOk result (λ bytes. length bytes.items ≡ len) }
    ensures error { IfErr result IsFailure }
    ensures noted { RestMade result id (len - 32) (F.notes files.old) (F.notes files.new) }
    ensures kept { KeepsFiles F.Files files.old files.new }
    ensures open_faults { F.open_faults files.new ≡ F.open_faults files.old }
    ensures page_faults { CountsFault result (F.page_faults files.old) (F.page_faults files.new) }
{
    let mut bytes = head;
    bytes.resize(len, 0)?;
    read_behind(files, id, bytes.as_mut_slice())?;
    Ok(bytes)
}

// Reads the header of a file of so many bytes, and judges the file by it.
fn read_header<F: Files>(alloc: Global, files: &mut F, id: u32, len: u64) -> Result<Headed, Unread>
    requires range { HasRange (F.holds files.old) id 0 len }
    ensures answers { (list : List NamedFile) → F.holds files.old ≡ Some list → len ≡ length (bytes_at list id)
        → Answers (λ headed. headed.image) (facts_in (judged_image (bytes_at list id))) result }
    ensures header { IfOk result (λ headed. HoldsRange (F.holds files.old) id 0 headed.header.items) }
    ensures size { IfOk result (λ headed. length headed.header.items ≡ 32) }
    ensures judged { IfOk result (λ headed. (bytes : List ℕ) → take 32 bytes ≡ headed.header.items → length bytes ≡ len
        → Judged.Is headed.image ≡ judged_of (judged_image bytes)) }
    ensures sound { IfOk result (λ headed. IsSound headed.image) }
    ensures whole { IfOk result (λ headed. file_length_of headed.image ≤ len) }
    ensures error { IfErr result IsOfFoundFile }
    ensures noted { FrontMade result id (min len 32) (F.notes files.old) (F.notes files.new) }
    ensures kept { KeepsFiles F.Files files.old files.new }
    ensures open_faults { CountsFault result (F.open_faults files.old) (F.open_faults files.new) }
    ensures page_faults { F.page_faults files.new ≡ F.page_faults files.old }
{
    let header = read_front(alloc, files, id, len.min(32) as usize)?;
    match read_image(header.as_slice(), len) {
        Judged::NotImage(reason) => Err(Unread::NotImage(reason)),
        Judged::Is(image) => Ok(Headed { image, header }),
    }
}

// Judges a file of so many bytes by its header, and reads the rest of what its header asks for.
fn load_found<F: Files>(alloc: Global, files: &mut F, id: u32, len: u64) -> Result<Loaded, Unread>
    requires range { HasRange (F.holds files.old) id 0 len }
    ensures answers { (list : List NamedFile) → F.holds files.old ≡ Some list → len ≡ length (bytes_at list id)
        → Answers (λ loaded. (loaded.image, loaded.bytes.items)) (image_in (bytes_at list id) (judged_image (bytes_at list id))) result }
    ensures order { (list : List NamedFile) → F.holds files.old ≡ Some list → len ≡ length (bytes_at list id)
        → FailsInOrder (image_in (bytes_at list id) (judged_image (bytes_at list id))) result (F.open_faults files.old) (F.open_faults files.new)
        (F.page_faults files.old) (F.page_faults files.new) }
    ensures image { IfOk result (λ loaded. IsImageOf (judged_image loaded.bytes.items) loaded.image) }
    ensures sound { IfOk result (λ loaded. IsSound loaded.image) }
    ensures size { IfOk result (λ loaded. length loaded.bytes.items ≡ file_length_of loaded.image) }
    ensures noted { LoadMade result (F.holds files.old) id len (F.notes files.old) (F.notes files.new) }
    ensures kept { KeepsFiles F.Files files.old files.new }
    ensures faults { CountsFaults result (F.open_faults files.old) (F.open_faults files.new) (F.page_faults files.old) (F.page_faults files.new) }
{
    let headed = read_header(alloc, files, id, len)?;
    let image = headed.image;
    let bytes = read_rest(files, id, headed.header, image.file_length() as usize)?;
    Ok(Loaded { image, bytes })
}

/// Finds an image, and judges it by its header, which is read by one call where the file isn't empty.
pub fn open_image<F: Files>(alloc: Global, files: &mut F, name: &str) -> Result<Opened, Unread>
    ensures answers { (list : List NamedFile) → F.holds files.old ≡ Some list
        → Answers (λ opened. opened.image) (facts_told list name.now) result }
    ensures place { IfOk result (λ opened. (list : List NamedFile) → F.holds files.old ≡ Some list → place_of list name.now ≡ Some opened.file) }
    ensures range { IfOk result (λ opened. HasRange (F.holds files.old) opened.file 0 (file_length_of opened.image)) }
    ensures sound { IfOk result (λ opened. IsSound opened.image) }
    ensures asked { AsksFront name.now (F.holds files.old) 32 (is_err result ≡ true) (result ≡ Err Unread.NoMemory) (F.notes files.old) (F.notes files.new) }
    ensures kept { KeepsFiles F.Files files.old files.new }
    ensures open_faults { CountsFault result (F.open_faults files.old) (F.open_faults files.new) }
    ensures page_faults { F.page_faults files.new ≡ F.page_faults files.old }
{
    match files.find(name) {
        Found::Failed => Err(Unread::FileFault),
        Found::Absent => Err(Unread::Absent),
        Found::Is { id, len } => {
            let headed = read_header(alloc, files, id, len)?;
            Ok(Opened {
                image: headed.image,
                file: id,
            })
        }
    }
}

/// Finds an image, judges it by its header, which is read by one call where the file isn't empty, and
/// reads the rest of its text and data by one call from after the header on, where there is any. The
/// header that was judged stays the front of the bytes, so what was read is an image with these facts
/// over all files. The header counts to a file's open faults, and what follows it to its page faults.
pub fn load_image<F: Files>(alloc: Global, files: &mut F, name: &str) -> Result<Loaded, Unread>
    ensures answers { (list : List NamedFile) → F.holds files.old ≡ Some list
        → Answers (λ loaded. (loaded.image, loaded.bytes.items)) (image_told list name.now) result }
    ensures order { (list : List NamedFile) → F.holds files.old ≡ Some list
        → FailsInOrder (image_told list name.now) result (F.open_faults files.old) (F.open_faults files.new) (F.page_faults files.old)
        (F.page_faults files.new) }
    ensures image { IfOk result (λ loaded. IsImageOf (judged_image loaded.bytes.items) loaded.image) }
    ensures sound { IfOk result (λ loaded. IsSound loaded.image) }
    ensures size { IfOk result (λ loaded. length loaded.bytes.items ≡ file_length_of loaded.image) }
    ensures asked { AsksImage name.now (F.holds files.old) (IsUnread result) (result ≡ Err Unread.NoMemory) (IsUnfit result) (F.notes files.old)
        (F.notes files.new) }
    ensures kept { KeepsFiles F.Files files.old files.new }
    ensures faults { CountsFaults result (F.open_faults files.old) (F.open_faults files.new) (F.page_faults files.old) (F.page_faults files.new) }
{
    match files.find(name) {
        Found::Failed => Err(Unread::FileFault),
        Found::Absent => Err(Unread::Absent),
        Found::Is { id, len } => load_found(alloc, files, id, len),
    }
}
