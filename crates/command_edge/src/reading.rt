//! Finds a file and reads it, by one call where it has a byte.
ghost use Rattle.std.specs.Prelude.{◌≡◌, ◌≤◌, ◌^◌, ◌<◌, ℕ, List, Some, Err, true, is_err, IfOk, IfErr, IfSome, length, option_map};
ghost use Rattle.io_edge.specs.Calls.{KeepsFiles};
ghost use Rattle.io_edge.specs.FileHolding.{NamedFile, HasRange, HoldsRange};
ghost use Rattle.command_edge.specs.Answering.{Answers, CountsFault, IsFailure, IsOfAnyFile};
ghost use Rattle.command_edge.specs.Asked.{AsksFront, AsksWhole, FrontMade};
ghost use Rattle.command_edge.specs.Told.{bytes_told, whole_told};

use crate::answers::Unread;
use io_edge::{Files, Found, read_range};
use std::alloc::Global;

// So many bytes from the start of a file on; none need no call.
pub(crate) fn read_front<F: Files>(
    alloc: Global,
    files: &mut F,
    id: u32,
    len: usize,
) -> Result<Vec<u8>, Unread>
    requires range { HasRange (F.holds files.old) id 0 len }
    ensures bytes { IfOk result (λ bytes. HoldsRange (F.holds files.old) id 0 bytes.items) }
    ensures size { IfOk result (λ bytes. length bytes.items ≡ len) }
    ensures error { IfErr result IsFailure }
    ensures noted { FrontMade result id len (F.notes files.old) (F.notes files.new) }
    ensures kept { KeepsFiles F.Files files.old files.new }
    ensures open_faults { CountsFault result (F.open_faults files.old) (F.open_faults files.new) }
    ensures page_faults { F.page_faults files.new ≡ F.page_faults files.old }
{
    let mut bytes = vec![in alloc; 0u8; len]?;
    read_range(files, id, 0, bytes.as_mut_slice())?;
    Ok(bytes)
}

/// Finds a file and reads it, where it isn't empty, by one call: all of it, or its first `most` bytes
/// where it has more. Absent comes only where a told list lacks the name, and NotImage never.
pub fn read_file<F: Files>(
    alloc: Global,
    files: &mut F,
    name: &str,
    most: u64,
) -> Result<Vec<u8>, Unread>
    ensures answers { (list : List NamedFile) → F.holds files.old ≡ Some list → Answers (λ bytes. bytes.items) (bytes_told list name.now most) result }
    ensures size { IfOk result (λ bytes. length bytes.items ≤ most) }
    ensures error { IfErr result IsOfAnyFile }
    ensures asked { AsksFront name.now (F.holds files.old) most (is_err result ≡ true) (result ≡ Err Unread.NoMemory) (F.notes files.old) (F.notes files.new) }
    ensures kept { KeepsFiles F.Files files.old files.new }
    ensures open_faults { CountsFault result (F.open_faults files.old) (F.open_faults files.new) }
    ensures page_faults { F.page_faults files.new ≡ F.page_faults files.old }
{
    match files.find(name) {
        Found::Failed => Err(Unread::FileFault),
        Found::Absent => Err(Unread::Absent),
        Found::Is { id, len } => read_front(alloc, files, id, len.min(most) as usize),
    }
}

/// Finds a file and reads all of it, where it isn't empty, by one call. One that has more than `most`
/// bytes is `None`, and isn't read. Absent comes only where a told list lacks the name, and NotImage never.
pub fn read_whole<F: Files>(
    alloc: Global,
    files: &mut F,
    name: &str,
    most: u64,
) -> Result<Option<Vec<u8>>, Unread>
    ensures answers { (list : List NamedFile) → F.holds files.old ≡ Some list
        → Answers (option_map (λ bytes. bytes.items)) (whole_told list name.now most) result }
    ensures size { IfOk result (λ read. IfSome read (λ bytes. length bytes.items ≤ most)) }
    ensures error { IfErr result IsOfAnyFile }
    ensures asked { AsksWhole name.now (F.holds files.old) most (is_err result ≡ true) (result ≡ Err Unread.NoMemory) (F.notes files.old) (F.notes files.new) }
    ensures kept { KeepsFiles F.Files files.old files.new }
    ensures open_faults { CountsFault result (F.open_faults files.old) (F.open_faults files.new) }
    ensures page_faults { F.page_faults files.new ≡ F.page_faults files.old }
{
    match files.find(name) {
        Found::Failed => Err(Unread::FileFault),
        Found::Absent => Err(Unread::Absent),
        Found::Is { len, .. } if len > most => Ok(None),
        Found::Is { id, len } => {
            let bytes = read_front(alloc, files, id, len as usize)?;
            Ok(Some(bytes))
        }
    }
}
