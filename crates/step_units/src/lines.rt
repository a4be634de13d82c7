//! Laws that what a machine makes of lines and turns is next units of a run. There is no code here.
ghost use Rattle.step_units.specs.Lines.{LineBegins, LineStops, InterruptIsMade, IdleInterruptEnds, InterruptStops, HandsAreMade, HandsStop};
ghost use Rattle.step_units.specs.Lines.{SwapperIsMade, SwapperStops, AuditIsMade, AuditStops, TurnBegins, TurnStops, ComingInIsMade, ComingInStops};
ghost use Rattle.step_units.specs.Registers.{LongwordsStay};
ghost use Rattle.step_units.specs.Residing.{ClosingStaysIn};

/// Between two lines the entry of the next one is the next unit, and its mark is the last then.
pub fn lines_begin()
    ensures is { LineBegins }
    ensures stops { LineStops }
{}

/// Under a line the units that a machine makes of what it asks for are next units, and lead to where the line is over: the end of
/// the oldest transfer, moves of the hands, a turn of the swapper, the numbers of frames and blocks. Where the run stops there,
/// the next unit is known.
pub fn lines_are_made()
    ensures interrupt { InterruptIsMade }
    ensures idle { IdleInterruptEnds }
    ensures interrupt_stops { InterruptStops }
    ensures hands { HandsAreMade }
    ensures hands_stop { HandsStop }
    ensures swapper { SwapperIsMade }
    ensures swapper_stops { SwapperStops }
    ensures audit { AuditIsMade }
    ensures audit_stops { AuditStops }
{}

/// After the last line the entry of a turn is the next unit, and a process that is out comes in first. In the closing phase a
/// process that is in stays in.
pub fn turns_begin()
    ensures is { TurnBegins }
    ensures stops { TurnStops }
    ensures comes_in { ComingInIsMade }
    ensures coming_in_stops { ComingInStops }
    ensures resident { ClosingStaysIn }
{}

/// Along a run the registers of each process are longwords, and its space is of bytes: next units keep that, while the numbers of
/// processes are longwords.
pub fn longwords_stay()
    ensures { LongwordsStay }
{}
