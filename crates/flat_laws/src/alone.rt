//! The frame rule of the flat machine: a process does beside others what it does alone. There is no code here.
ghost use Rattle.flat_laws.specs.Alone.{RunsAsAlone};

/// The frame rule of the flat machine, for any program. Where a process holds a space and is awake, and makes no call in these units of a
/// run, its memory and its registers after them follow from those before by its own steps alone. What the others do changes neither. It may
/// have borrowed its space by a vfork: its lender has none while it does. A process that lent its space has no memory till it is back.
pub fn runs_as_alone()
    ensures { RunsAsAlone }
{}
