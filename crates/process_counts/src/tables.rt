//! Counts by number, in a list that grows as numbers come.
ghost use Rattle.std.specs.Prelude.{◌≡◌, ◌+◌, ◌<◌, ◌≤◌, ◌^◌, ℕ, length, slice_index, slice_set, OnOk};
ghost use Rattle.process_counts.specs.Tables.{count_at, added_at};

use std::alloc::AllocError;

// Makes a table long enough for a place.
fn make_room(counts: &mut Vec<u128>, place: usize) -> Result<(), AllocError>
    requires { place < 2 ^ 32 }
    ensures room { OnOk result (place < length counts.new.items) }
    ensures same { OnOk result ((k : ℕ) → count_at counts.new.items k ≡ count_at counts.old.items k) }
{
    if place < counts.len() {
        return Ok(());
    }
    counts.resize(place + 1, 0)?;
    Ok(())
}

// Adds to the count at a place.
fn raise(counts: &mut [u128], place: usize, amount: u64)
    requires within { place < length counts.old }
    requires fits { slice_index counts.old place + 2 ^ 64 ≤ 2 ^ 128 }
    ensures { counts.new ≡ slice_set counts.old place (slice_index counts.old place + amount) }
{
    counts[place] += u128::from(amount);
}

/// Adds to the count at a number. A table is as long as the largest number that something was added at; behind its end each count
/// is 0. The one error is that no memory is left.
pub fn add_at(counts: &mut Vec<u128>, number: u32, amount: u64) -> Result<(), AllocError>
    requires { count_at counts.old.items number + 2 ^ 64 ≤ 2 ^ 128 }
    ensures value { OnOk result ((k : ℕ) → count_at counts.new.items k ≡ count_at counts.old.items k + added_at number amount k) }
    ensures grows { OnOk result ((k : ℕ) → count_at counts.new.items k < count_at counts.old.items k + 2 ^ 64) }
{
    if amount == 0 {
        return Ok(());
    }
    let place = number as usize;
    make_room(counts, place)?;
    raise(counts.as_mut_slice(), place, amount);
    Ok(())
}

/// The count at a number of a table.
pub fn count_at(counts: &[u128], number: u32) -> u128
    ensures { result ≡ count_at counts.now number }
{
    match counts.get(number as usize) {
        Some(count) => *count,
        None => 0,
    }
}
