//! Moves of the hands, or instructions of a process, that the journal's last entry counts. Room must be there before
//! one is counted. No other kind may be joined.
ghost use Rattle.std.specs.Prelude.{◌≡◌, ◌⊎◌, ℕ, ◌+◌, ◌<◌, ◌≤◌, ◌↔◌, ◌^◌, true, length, Some, None, IsSome, OnOk, OnErr, Err};
ghost use Rattle.std.specs.Vec.{vec_capacity, vec_len};
ghost use Rattle.vm_facts.specs.declared.entry.Entry.TheVariants.{Hands, Ran};
ghost use Rattle.flat_state.specs.Journal.{append};
ghost use Rattle.table_steps.specs.Joined.{moves_in, instructions_in, last_says, IsFullFor};

use crate::notes;
use vm_facts::{Entry, Stop};

// The moves of the hands that an entry counts, where it counts such.
fn moves_in(e: &Entry) -> Option<u32>
    ensures { result ≡ moves_in e.now }
{
    match e {
        Entry::Hands { count } => Some(*count),
        _ => None,
    }
}

// The moves of the hands that the last entry counts, where it counts such.
fn last_moves(journal: &[Entry]) -> Option<u32>
    ensures { result ≡ last_says moves_in journal.now }
{
    moves_in(journal.last()?)
}

/// Room for one more move of the hands, which a last entry that counts moves has.
pub fn make_room_to_move(
    journal: &mut Vec<Entry>,
    room: &mut Option<u32>,
    limit: u32,
) -> Result<(), Stop>
    ensures same { journal.new.items ≡ journal.old.items }
    ensures has_room { OnOk result
        (last_says moves_in journal.old.items ≡ None → (length journal.old.items < limit) × (vec_len journal.new < vec_capacity journal.new)) }
    ensures room { room.new ≡ None }
    ensures full { (result ≡ Err Stop.JournalFull) ↔ IsFullFor journal.old.items limit (Hands 1) }
    ensures cause { OnErr result ((result ≡ Err Stop.JournalFull) ⊎ (result ≡ Err Stop.NoMemory)) }
{
    if last_moves(journal.as_slice()).is_some() {
        *room = None;
        return Ok(());
    }
    notes::make_room(journal, room, limit)
}

/// Counts one more move of the hands, for which there is room.
pub fn add_move(journal: &mut Vec<Entry>)
    requires fits { (count : ℕ) → last_says moves_in journal.old.items ≡ Some count → count + 1 < 2 ^ 32 }
    requires room { last_says moves_in journal.old.items ≡ None → vec_len journal.old < vec_capacity journal.old }
    ensures { journal.new.items ≡ append journal.old.items (Hands 1) }
{
    match last_moves(journal.as_slice()) {
        Some(count) => {
            let last = journal.len() - 1;
            journal[last] = Entry::Hands { count: count + 1 };
        }
        None => journal.push_reserved(Entry::Hands { count: 1 }),
    }
}

// The instructions of a process that an entry counts, where it counts such.
fn instructions_in(e: &Entry, of: u32) -> Option<u32>
    ensures { result ≡ instructions_in of e.now }
{
    match e {
        Entry::Ran { pid, count } if *pid == of => Some(*count),
        _ => None,
    }
}

// The instructions of a process that the last entry counts, where it counts such.
fn last_instructions(journal: &[Entry], pid: u32) -> Option<u32>
    ensures { result ≡ last_says (instructions_in pid) journal.now }
{
    instructions_in(journal.last()?, pid)
}

/// Room for one more instruction of a process, which a last entry that counts its instructions has.
pub fn make_room_to_run(
    journal: &mut Vec<Entry>,
    room: &mut Option<u32>,
    limit: u32,
    pid: u32,
) -> Result<(), Stop>
    ensures same { journal.new.items ≡ journal.old.items }
    ensures has_room { OnOk result
        (last_says (instructions_in pid) journal.old.items ≡ None → (length journal.old.items < limit) × (vec_len journal.new < vec_capacity journal.new)) }
    ensures room { room.new ≡ None }
    ensures full { (result ≡ Err Stop.JournalFull) ↔ IsFullFor journal.old.items limit (Ran pid 1) }
    ensures cause { OnErr result ((result ≡ Err Stop.JournalFull) ⊎ (result ≡ Err Stop.NoMemory)) }
{
    if last_instructions(journal.as_slice(), pid).is_some() {
        *room = None;
        return Ok(());
    }
    notes::make_room(journal, room, limit)
}

/// Counts one more instruction of a process, for which there is room.
pub fn add_instruction(journal: &mut Vec<Entry>, pid: u32)
    requires fits { (count : ℕ) → last_says (instructions_in pid) journal.old.items ≡ Some count → count + 1 < 2 ^ 32 }
    requires room { last_says (instructions_in pid) journal.old.items ≡ None → vec_len journal.old < vec_capacity journal.old }
    ensures { journal.new.items ≡ append journal.old.items (Ran pid 1) }
{
    match last_instructions(journal.as_slice(), pid) {
        Some(count) => {
            let last = journal.len() - 1;
            journal[last] = Entry::Ran {
                pid,
                count: count + 1,
            };
        }
        None => journal.push_reserved(Entry::Ran { pid, count: 1 }),
    }
}

/// Counts so many further instructions of a process, in the last entry, which counts such.
pub fn add_instructions(journal: &mut Vec<Entry>, pid: u32, more: u32)
    requires counts { IsSome (last_says (instructions_in pid) journal.old.items) }
    requires fits { (count : ℕ) → last_says (instructions_in pid) journal.old.items ≡ Some count → count + more < 2 ^ 32 }
    ensures { journal.new.items ≡ append journal.old.items (Ran pid more) }
{
    match last_instructions(journal.as_slice(), pid) {
        Some(count) => {
            let last = journal.len() - 1;
            journal[last] = Entry::Ran {
                pid,
                count: count + more,
            };
        }
        None => unreachable!(),
    }
}
