//! Swap files belong to one run: they are locked, and for their owner alone.
ghost use Rattle.std.specs.Prelude.{◌≡◌, ◌≤◌, ◌⊎◌, ◌↔◌, IsOk, IfOk, OnOk, IsTrue};
ghost use Rattle.system_calls.specs.Bytes.{Empties, IsTold};
ghost use Rattle.system_edge.specs.OwnFiles.{IsPlain, IsOwn, IsChecked, IsTaken};
ghost use Rattle.system_edge.specs.SwapFiles.{IsEmptied};

use std::io;
use std::io::ErrorKind;
use system_calls::{FileFacts, System, SystemFile};

fn refused(why: &str) -> io::Error {
    io::Error::new(ErrorKind::InvalidInput, why)
}

// That a name is that of a plain file, and no link.
fn check_plain(named: &FileFacts) -> io::Result<()>
    ensures { IsOk result ↔ IsPlain named.now }
{
    if named.is_link {
        return Err(refused("is a link, and no plain file"));
    }
    if !named.is_plain {
        return Err(refused("is no plain file"));
    }
    Ok(())
}

// That a file is the one of this device and number.
fn check_same(named: (u64, u64), opened: (u64, u64)) -> io::Result<()>
    ensures { IsOk result ↔ (named ≡ opened) }
{
    if named.0 == opened.0 && named.1 == opened.1 {
        Ok(())
    } else {
        Err(refused("became another file"))
    }
}

// That a file has no second name.
fn check_only(names: u64) -> io::Result<()>
    ensures { IsOk result ↔ (names ≤ 1) }
{
    if names > 1 {
        return Err(refused("is a file that has another name too"));
    }
    Ok(())
}

// That a file belongs to this user, whoever that is: not even the superuser takes another's.
fn check_owner(user: u32, owner: u32) -> io::Result<()>
    ensures { IsOk result ↔ (user ≡ owner) }
{
    if user == owner {
        Ok(())
    } else {
        Err(refused("belongs to another user"))
    }
}

// That what has a name, and what was opened under it, are one file, which is this user's own and has no other name.
fn check_own(named: &FileFacts, opened: &FileFacts, user: Option<u32>) -> io::Result<()>
    ensures { OnOk result (IsOwn named.now opened.now user) }
{
    check_plain(named)?;
    check_same((named.device, named.number), (opened.device, opened.number))?;
    check_only(opened.names)?;
    if let Some(user) = user {
        check_owner(user, opened.owner)?;
    }
    Ok(())
}

// Why a file couldn't be locked: where somebody has it, this is told.
fn told_busy(error: io::Error, why: &str) -> io::Error {
    if error.kind() == ErrorKind::ResourceBusy {
        io::Error::new(ErrorKind::ResourceBusy, why)
    } else {
        error
    }
}

// Locks a file for this open of it alone.
fn lock_alone<F: SystemFile>(file: &F) -> io::Result<()>
    ensures { OnOk result (F.is_alone file.now) }
{
    match file.lock_alone() {
        Ok(()) => Ok(()),
        Err(error) => Err(told_busy(
            error,
            "in use by another run in this folder, or as a file of this run",
        )),
    }
}

// Opens a file that is there for this run alone, where it is this user's own plain file of this one name. After
// that nobody else may read or write it.
fn open_kept<S: System>(system: &S, name: &str) -> io::Result<S::File>
    ensures told { IfOk result (λ file. IsTold (S.tells system.now) (S.File.bytes file)) }
    ensures own { IfOk result (λ file. IsChecked (S.is_said system.now name.now) (S.File.is_said file) (S.is_user system.now)) }
    ensures alone { IfOk result (λ file. S.File.is_alone file) }
    ensures private { IfOk result (λ file. S.File.is_private file) }
{
    check_plain(&system.facts_of(name)?)?;
    let file = system.open_to_write(name)?;
    check_own(&system.facts_of(name)?, &file.facts()?, system.user())?;
    lock_alone(&file)?;
    file.keep_private()?;
    Ok(file)
}

// Makes a file for this run alone, where there is none of this name.
fn make_new<S: System>(system: &S, name: &str) -> io::Result<S::File>
    ensures told { IfOk result (λ file. IsTold (S.tells system.now) (S.File.bytes file)) }
    ensures made { IfOk result (λ file. S.File.is_new file) }
    ensures alone { IfOk result (λ file. S.File.is_alone file) }
{
    let file = system.make(name)?;
    lock_alone(&file)?;
    Ok(file)
}

// Takes the file of this name for this run alone. It is made where there is none. One that isn't a plain file of this
// user with this name alone is left as it is, and so is one that another run has, or that this run reads.
fn take_own<S: System>(system: &S, name: &str) -> io::Result<S::File>
    ensures told { IfOk result (λ file. IsTold (S.tells system.now) (S.File.bytes file)) }
    ensures taken { IfOk result (λ file. IsTaken (S.is_said system.now name.now) (S.is_user system.now) (S.File.is_new file) (S.File.is_said file)
        (S.File.is_private file)) }
    ensures alone { IfOk result (λ file. S.File.is_alone file) }
{
    match make_new(system, name) {
        Err(error) if error.kind() == ErrorKind::AlreadyExists => open_kept(system, name),
        made => made,
    }
}

// Takes the file of this name for this run alone, and empties it.
#[tactic(auto, using(crate::proofs::SwapRanges::emptied))]
pub(crate) fn open_own<S: System>(system: &S, name: &str) -> io::Result<S::File>
    ensures { IfOk result (λ file. IsEmptied (S.tells system.now) (S.File.bytes file)) }
{
    let mut file = take_own(system, name)?;
    file.empty()?;
    Ok(file)
}
