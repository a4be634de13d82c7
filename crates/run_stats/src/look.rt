//! What is looked at between two entries. The machine may not be changed by it.
ghost use Rattle.vm_facts.specs.declared.page.Page.{Page};
ghost use Rattle.std.specs.Prelude.{◌≡◌, ◌-◌, Some, length, map, slice_get};
ghost use Rattle.page_model.specs.Placement.{Reads, Writes};
ghost use Rattle.machine_state.specs.Going.{IsRunning};
ghost use Rattle.machine_state.specs.View.{in_part, out_part, source_shown, transfer_shown};
ghost use Rattle.run_model.specs.Next.{blocks_held};
ghost use Rattle.process_counts.specs.Counts.{page_owner};
ghost use Rattle.run_stats.specs.Looks.{flight_by, flight_of, newest_of, runner_of, look_of};

use crate::valid::valid_frames;
use machine_state::Machine;
use process_counts::{Owner, owner_of};
use run_model::Mark;
use swap_book::Held;
use transfer_ring::{Inbound, Outbound, Source, Transfer};

/// A transfer by where its pages go (this project's profile).
#[derive(Clone, Copy, Debug, PartialEq, Eq, Drop)]
pub enum Flight {
    /// There is none.
    Empty,
    /// So many pages are read from a file.
    OfFile(u64),
    /// So many pages are read from swap.
    OfSwap(u64),
    /// So many pages are written to swap, the first of which is one of these.
    ToSwap(Owner, u64),
}

/// What is looked at of a run between two entries (this project's profile).
#[derive(Clone, Copy, Debug, PartialEq, Eq, Drop)]
pub struct Look {
    /// The process that runs; 0 where none does.
    pub runner: u32,
    /// The frames whose page is valid.
    pub valid: u32,
    /// The frames that are free.
    pub free: u32,
    /// The frames in transfers.
    pub moving: u32,
    /// The blocks of swap that are held.
    pub held: u128,
    /// The transfer that ends next.
    pub oldest: Flight,
    /// The transfer that began last.
    pub newest: Flight,
}

// A read by where its pages come from.
fn read_flight(parts: &[Inbound]) -> Flight
    ensures { (demanded : Page) → result ≡ flight_by (Reads (source_shown parts.now) demanded) (map in_part parts.now) }
{
    match parts {
        [] => Flight::OfSwap(0),
        [first, ..] => match first.source {
            Source::Swap(_) => Flight::OfSwap(parts.len() as u64),
            Source::File { .. } => Flight::OfFile(parts.len() as u64),
        },
    }
}

// A write by whose its first page is.
fn write_flight(parts: &[Outbound]) -> Flight
    ensures { result ≡ flight_by Writes (map out_part parts.now) }
{
    match parts {
        [] => Flight::Empty,
        [first, ..] => Flight::ToSwap(owner_of(first.page), parts.len() as u64),
    }
}

fn flight_seen(transfer: &Transfer) -> Flight
    ensures { result ≡ flight_of (Some (transfer_shown transfer.now)) }
{
    match transfer {
        Transfer::Read { parts, .. } => read_flight(parts.as_slice()),
        Transfer::Write { parts } => write_flight(parts.as_slice()),
    }
}

// The transfer at a place, 0 for the oldest.
fn flight_at(machine: &Machine, place: u32) -> Flight
    ensures { result ≡ flight_of (slice_get machine.now.kernel.place.transfers place) }
{
    match machine.transfer(place) {
        Some(transfer) => flight_seen(transfer),
        None => Flight::Empty,
    }
}

fn newest(machine: &Machine) -> Flight
    ensures { result ≡ flight_of (newest_of machine.now.kernel.place.transfers) }
{
    flight_at(machine, machine.in_flight().saturating_sub(1))
}

fn runner(mark: Mark) -> u32
    ensures { result ≡ runner_of mark }
{
    match mark {
        Mark::Dispatch { pid, .. } | Mark::Turn { pid, .. } => pid,
        _ => 0,
    }
}

// How many blocks of swap these pieces have. No sum can leave its range.
fn held(holdings: &[Held]) -> u128
    ensures { result ≡ blocks_held holdings.now }
{
    let mut held: u128 = 0;
    for piece in holdings {
        held += u128::from(piece.length);
    }
    held
}

/// What is looked at of a machine that runs, under a mark.
pub fn look_over(machine: &Machine, mark: Mark) -> Look
    requires running { IsRunning machine.now }
    ensures { result ≡ look_of mark machine.now.kernel.place machine.now.kernel.holdings }
{
    Look {
        runner: runner(mark),
        valid: valid_frames(machine),
        free: machine.free_frames(),
        moving: machine.moving_frames(),
        held: held(machine.holdings()),
        oldest: flight_at(machine, 0),
        newest: newest(machine),
    }
}
