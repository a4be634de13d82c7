// The law of what a load does, stage by stage, and what it counts in the end. There is no code here.
ghost use Rattle.load_maker.specs.LoadLaws.{LoadsAreUnderWay, FinishedLoadsCount, LoadsAreShort};

/// At each place of a run of a load's inputs, whatever its schedule and its frames are, each process stands at a stage of its program;
/// what was counted and what is left make the whole; and nothing was refused. A finished run counted what its number says: no process
/// is left that sleeps, so all eight have ended. And its journal is short.
pub fn loads_count()
    ensures way { LoadsAreUnderWay }
    ensures finished { FinishedLoadsCount }
    ensures short { LoadsAreShort }
{}
