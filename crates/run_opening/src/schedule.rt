//! Opens the schedule, and reads its events. Of a file that is too long only a front is read.
ghost use Rattle.std.specs.Prelude.{◌≡◌, ◌≤◌, ℕ, List, Err, true, is_err, All, IfOk, length};
ghost use Rattle.io_edge.specs.Calls.{KeepsFiles};
ghost use Rattle.io_edge.specs.FileHolding.{NamedFile};
ghost use Rattle.run_text.specs.Schedule.{IsInRanges};
ghost use Rattle.command_edge.specs.Command.{Made};
ghost use Rattle.run_opening.specs.Schedules.{schedule_lines, schedule_bytes, schedule_found, EndsEvents, EndsSchedule};
ghost use Rattle.run_opening.specs.Opening.{CountsOpen};
ghost use Rattle.command_edge.specs.Asked.{AsksFront};

use command_edge::{Fault, read_file};
use io_edge::Files;
use run_text::{Schedule, read_schedule};
use std::alloc::Global;
use vm_facts::Event;

/// No more bytes of a schedule are read: a good one has at most 65,536 lines of at most 20 bytes.
pub const SCHEDULE_BYTES: u64 = 1_310_741;

/// A schedule is read up to the number of bytes that FORMATS has.
pub fn schedule_bytes_are_documented()
    ensures { schedule_bytes ≡ 1310741 }
{}

// The events that the bytes of a schedule are.
fn events_of<'a>(alloc: Global, bytes: &[u8]) -> Result<Vec<Event>, Fault<'a>>
    ensures ends { EndsEvents bytes.now result }
    ensures ranges { IfOk result (λ lines. All IsInRanges lines.items) }
{
    match read_schedule(alloc, bytes) {
        Ok(Schedule::Is(events)) => Ok(events),
        Ok(Schedule::BadLine(line)) => Err(Fault::BadSchedule(line)),
        Err(_) => Err(Fault::NoMemory),
    }
}

/// The events of the schedule of this name. It is read by one call, where it isn't empty.
pub fn open_schedule<'a, F: Files>(
    alloc: Global,
    files: &mut F,
    name: &'a str,
) -> Result<Vec<Event>, Fault<'a>>
    ensures ends { Made (EndsSchedule name.now) (λ list. schedule_found list name.now) (F.holds files.old)
        (record {
          open_before = F.open_faults files.old;
          open_after = F.open_faults files.new;
          page_before = F.page_faults files.old;
          page_after = F.page_faults files.new;
        }) result }
    ensures ranges { IfOk result (λ lines. All IsInRanges lines.items) }
    ensures few { IfOk result (λ lines. length lines.items ≤ schedule_lines) }
    ensures asked { AsksFront name.now (F.holds files.old) schedule_bytes (is_err result ≡ true) (result ≡ Err Fault.NoMemory) (F.notes files.old)
        (F.notes files.new) }
    ensures kept { KeepsFiles F.Files files.old files.new }
    ensures open_faults { CountsOpen result (F.open_faults files.old) (F.open_faults files.new) }
    ensures page_faults { F.page_faults files.new ≡ F.page_faults files.old }
{
    match read_file(alloc, files, name, SCHEDULE_BYTES) {
        Ok(bytes) => events_of(alloc, bytes.as_slice()),
        Err(unread) => Err(Fault::of_unread(name, unread)),
    }
}
