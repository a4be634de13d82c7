//! Laws that the next call may be made after each call, whatever the devices gave. There is no code here.
ghost use Rattle.step_units.specs.Seen.{CallerIsSeen};
ghost use Rattle.step_units.specs.Ready.{SelfContinues, BothContinue, LastCountsFew};
ghost use Rattle.step_units.specs.Entries.{EntryContinues, FoundContinues, NoteContinues, RanContinues, RoomContinues, WritesContinue, PassContinues};
ghost use Rattle.step_units.specs.Units.{UnitsRunOn, UnitsContinue};
ghost use Rattle.step_units.specs.Calls.{ReplyContinues, CallContinues, WriteContinues, WaitContinues, VforkContinues, ForkContinues, EndContinues, ExitContinues, BreakContinues, RefusalContinues, StartContinues, ExecStarts, ExecContinues};
ghost use Rattle.step_units.specs.Pages.{AccessContinues, AccessNowContinues};
ghost use Rattle.step_units.specs.LinesContinue.{MovesContinue, DoneContinues, TurnContinues, FillContinues};

/// A machine goes on as it is, and after two calls as by both together. A last entry of instructions counts no more than the whole
/// journal.
pub fn going_on_adds()
    ensures same { SelfContinues }
    ensures both { BothContinue }
    ensures counts { LastCountsFew }
{}

/// A machine goes on after an entry of a process that makes no page due, with pieces that were found before or not, after an
/// entry of the journal alone, and after an instruction, its room and its writes. So many instructions more are counted as the
/// entry counts.
pub fn entries_continue()
    ensures entries { EntryContinues }
    ensures found { FoundContinues }
    ensures notes { NoteContinues }
    ensures ran { RanContinues }
    ensures room { RoomContinues }
    ensures writes { WritesContinue }
    ensures passes { PassContinues }
{}

/// A machine goes on after units of paging, which count no instruction, where its last entry counts no more moves of the
/// hands than before; whatever is due, and however many moves it counts, it has its sizes, images and frames.
pub fn units_continue()
    ensures runs_on { UnitsRunOn }
    ensures goes_on { UnitsContinue }
{}

/// A machine goes on after each call of a process: one instruction more is counted where it has its reply or is gone, and none
/// where a byte missed or it sleeps.
pub fn calls_continue()
    ensures replies { ReplyContinues }
    ensures comes { CallContinues }
    ensures writes { WriteContinues }
    ensures waits { WaitContinues }
    ensures vforks { VforkContinues }
    ensures forks { ForkContinues }
    ensures ends { EndContinues }
    ensures exits { ExitContinues }
    ensures breaks { BreakContinues }
    ensures refusals { RefusalContinues }
    ensures starts { StartContinues }
    ensures execs { ExecStarts }
    ensures executes { ExecContinues }
{}

/// A machine goes on after an access that was served, whatever the answer, and counts no instruction more.
pub fn pages_continue()
    ensures touched { AccessContinues }
    ensures touched_now { AccessNowContinues }
{}

/// A machine goes on after the end of a transfer and a turn of the swapper; after moves of the hands, but that its last entry
/// counts so many more; and after the fill of a stack page that is due first, but for the pages that are due then.
pub fn lines_continue()
    ensures moves { MovesContinue }
    ensures done { DoneContinues }
    ensures turns { TurnContinues }
    ensures fills { FillContinues }
{}

/// A process whose record says that it holds a space and isn't out may make a call, where nothing is due.
pub fn callers_are_seen()
    ensures { CallerIsSeen }
{}
