//! The journal: room is made for an entry before the step that it stands for. Where there is none, nothing may have
//! moved.
ghost use Rattle.std.specs.Prelude.{◌≡◌, ◌⊎◌, ◌+◌, ◌<◌, ◌≤◌, ◌↔◌, true, length, None, IfOk, OnOk, OnErr, Ok, Err, is_err};
ghost use Rattle.std.specs.Vec.{vec_capacity, vec_len};

use std::mem;
use transfer_ring::Transfer;
use vm_facts::{Entry, NoMemory, Stop};

/// Room for one more entry, or why there is none. Room that was made before is given up.
pub fn make_room(journal: &mut Vec<Entry>, room: &mut Option<u32>, limit: u32) -> Result<(), Stop>
    ensures same { journal.new.items ≡ journal.old.items }
    ensures ok { OnOk result ((length journal.old.items < limit) × (vec_len journal.new < vec_capacity journal.new)) }
    ensures room { room.new ≡ None }
    ensures full { (result ≡ Err Stop.JournalFull) ↔ (limit ≤ length journal.old.items) }
    ensures cause { OnErr result ((result ≡ Err Stop.JournalFull) ⊎ (result ≡ Err Stop.NoMemory)) }
{
    *room = None;
    if journal.len() >= limit as usize {
        return Err(Stop::JournalFull);
    }
    if journal.reserve(1).is_err() {
        return Err(Stop::NoMemory);
    }
    Ok(())
}

/// The place in a journal of the entry that comes next, where there is room for it.
pub fn next_place(journal: &[Entry], limit: u32) -> u32
    requires { length journal.now < limit }
    ensures { result ≡ length journal.now + 1 }
{
    if journal.len() < limit as usize {
        journal.len() as u32 + 1
    } else {
        unreachable!()
    }
}

/// Keeps a transfer that failed; the machine stops.
pub fn lose(lost: &mut Option<Transfer>, stopped: &mut bool, transfer: Transfer)
    requires { lost.old ≡ None }
    ensures { stopped.new ≡ true }
{
    *stopped = true;
    match mem::replace(lost, Some(transfer)) {
        None => {}
        _other => unreachable!(),
    }
}

/// What was made, or want of memory.
pub fn or_stop<T>(made: Result<T, NoMemory>) -> Result<T, Stop>
    ensures made { IfOk result (λ value. made ≡ Ok value) }
    ensures unmade { OnErr result (is_err made ≡ true) }
    ensures cause { OnErr result (result ≡ Err Stop.NoMemory) }
{
    match made {
        Ok(made) => Ok(made),
        Err(NoMemory) => Err(Stop::NoMemory),
    }
}

/// What was made, or the machine stops for want of memory.
pub fn or_break_off<T>(stopped: &mut bool, made: Result<T, NoMemory>) -> Result<T, Stop>
    ensures made { IfOk result (λ value. made ≡ Ok value) }
    ensures same { OnOk result (stopped.new ≡ stopped.old) }
    ensures err { OnErr result ((stopped.new ≡ true) × (result ≡ Err Stop.NoMemory)) }
{
    match made {
        Ok(made) => Ok(made),
        Err(NoMemory) => {
            *stopped = true;
            Err(Stop::NoMemory)
        }
    }
}
