//! Laws that what a machine makes of instructions and calls is next units of a run. There is no code here.
ghost use Rattle.step_units.specs.Plain.{WaitIsMade, GetpidIsMade, WriteIsMade, RefusedIsMade, PlainCallStops, RefusedCallStops, WriteStops};
ghost use Rattle.step_units.specs.Making.{VforkIsMade, VforkStops, ForkIsMade, ForkStops};
ghost use Rattle.step_units.specs.Leaving.{SignalEnds, NoCallEnds, EndIsMade, EndStops, ExitIsMade, ExitStops, ExecIsMade, ExecStops};
ghost use Rattle.step_units.specs.Sizing.{BreakIsMade, BreakStops};
ghost use Rattle.step_units.specs.Rests.{BeginningIsLast, SentRests, RefusedRests, RestIsMade, RestStops};
ghost use Rattle.step_units.specs.Running.{InstructionIsMade, ServeIsMade, ServeStops, ServeNowIsMade, ServeNowStops};

/// A wait, a question for its number and a write of a process are its step, and so is any call whose read was refused. Where a
/// byte that a call reads misses, nothing is done, and the process waits for its page. Where the run stops there, its next unit
/// is known.
pub fn calls_are_steps()
    ensures wait { WaitIsMade }
    ensures getpid { GetpidIsMade }
    ensures write { WriteIsMade }
    ensures refused { RefusedIsMade }
    ensures plain_stops { PlainCallStops }
    ensures refused_stops { RefusedCallStops }
    ensures write_stops { WriteStops }
{}

/// A vfork is a step with which the space passes, and a fork one after which each page that is due is copied.
pub fn forks_are_steps()
    ensures vfork { VforkIsMade }
    ensures vfork_stops { VforkStops }
    ensures fork { ForkIsMade }
    ensures fork_stops { ForkStops }
{}

/// A process ends by a signal of its instruction, by a number that is none of the eight calls, and by exit: transfers of its space
/// end first, or the space goes back to its lender.
pub fn ends_are_steps()
    ensures signals { SignalEnds }
    ensures no_call { NoCallEnds }
    ensures end { EndIsMade }
    ensures end_stops { EndStops }
    ensures exit { ExitIsMade }
    ensures exit_stops { ExitStops }
{}

/// An execve is a step after which the new stack page is filled.
pub fn images_are_steps()
    ensures exec { ExecIsMade }
    ensures exec_stops { ExecStops }
{}

/// A break is a step, before which transfers end where it drops pages.
pub fn breaks_are_steps()
    ensures is { BreakIsMade }
    ensures stops { BreakStops }
{}

/// An instruction that makes no call is a step. A page that one waits for is served by next units, and so is one for which the
/// stack has to grow.
pub fn instructions_are_steps()
    ensures is { InstructionIsMade }
    ensures serves { ServeIsMade }
    ensures serve_stops { ServeStops }
    ensures serves_now { ServeNowIsMade }
    ensures serve_now_stops { ServeNowStops }
{}

/// A step of which bytes went out, or whose pieces found no place, is begun where that entry is the last one but for ends of
/// transfers. What is left of it is the reply of its call, or the end of a process whose stack can't grow.
pub fn rests_are_made()
    ensures begun { BeginningIsLast }
    ensures sent { SentRests }
    ensures refused { RefusedRests }
    ensures is { RestIsMade }
    ensures stops { RestStops }
{}
