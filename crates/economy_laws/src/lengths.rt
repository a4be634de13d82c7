//! The law that a journal is short, by the instructions and children that it counts. There is no code here.
ghost use Rattle.economy_laws.specs.Few.{SleepsAreFew, TurnsAreFew, CopiesAreFew, JournalsAreShort};

/// A lawful journal has no more entries than some number for each instruction, each child, each first process and each line of the
/// schedule, whatever is paged. Processes fall asleep no more often than they begin; turns begin no more often than processes stop; and
/// no more pages are copied than children have.
pub fn journals_are_short()
    ensures sleeps { SleepsAreFew }
    ensures turns { TurnsAreFew }
    ensures copies { CopiesAreFew }
    ensures entries { JournalsAreShort }
{}
