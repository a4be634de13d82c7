//! Laws of a machine under a mark of which some units are made already. There is no code here.
ghost use Rattle.step_units.specs.Halfway.{InterruptWaits, BroughtInMayCome, PutOutIsIn, PuttingIsMade, PuttingStops, BringingIsMade, BringingStops};

/// Under a mark of which some units may be made already a machine finds what its calls ask for: a transfer that is in flight, a
/// process that is out, or one that is in and holds a space.
pub fn marks_find_theirs()
    ensures interrupt { InterruptWaits }
    ensures brought_in { BroughtInMayCome }
    ensures put_out { PutOutIsIn }
{}

/// What is left of putting a process out, and of bringing one in, is next units, which lead to where the line is over, or to
/// where the run stops.
pub fn marks_go_on()
    ensures puts { PuttingIsMade }
    ensures putting_stops { PuttingStops }
    ensures brings { BringingIsMade }
    ensures bringing_stops { BringingStops }
{}
