//! Laws that compare a run's faults with the least of any plan. There is no code here.
ghost use Rattle.fault_laws.specs.Faults.{RunsHavePlans, RunsFaultEnough, CopiesCount};

/// A run faults at least as often as it must. The pages that its instructions touch, in order, have a plan for as many
/// frames with at most as many faults as the run has faults and copies of pages for children. So these are at least as many
/// as the least faults of any replacement (Belady). Pages may have any numbers. A run's faults are its fills with zeros, its
/// reads, each of one page that is asked for, and its reclaims. The neighbours that a read brings don't count, since they
/// aren't usable till they are reclaimed.
pub fn runs_fault_enough()
    ensures plan { RunsHavePlans }
    ensures least { RunsFaultEnough }
{}

/// The copies have to be counted: there is a run with fewer faults than the least of any replacement with as many frames. In
/// it a process changes two pages and forks, and its child changes both. They are copied for the child, so it touches
/// them with no fault; but each of them has to come into the cache of a plan.
pub fn copies_count()
    ensures { CopiesCount }
{}
