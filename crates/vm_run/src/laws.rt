//! Laws that sound inputs with no failed call come to a finished run or a told limit. There is no code here.
ghost use Rattle.vm_run.specs.Complete.{RunsComplete, LoadsComplete, ToldLoadsComplete};

/// Where files and swap devices are told, the schedule, the images and the devices are good, the first processes' pieces find their
/// places, and no call on files, devices or output fails, a run answers 0; or 9, want of memory; or 10, where its journal has all its
/// 16,777,216 entries.
pub fn sound_runs_complete()
    ensures { RunsComplete }
{}

/// Where the swap devices have as many blocks as a load needs, and no call on devices or output fails, a load answers 0; or 9, want of
/// memory; or 10, where its journal has all its entries. Where it is told what the devices hold, 10 never comes.
pub fn sound_loads_complete()
    ensures all { LoadsComplete }
    ensures told { ToldLoadsComplete }
{}
