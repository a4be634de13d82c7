//! The failed calls of one kind through a pair of devices, and which device failed last.
ghost use Rattle.std.specs.Prelude.{◌≡◌, ◌≤◌, ◌<◌, None, Some};
ghost use Rattle.std.specs.Option.{ForNone, ForSome};
ghost use Rattle.io_edge.specs.Count.{Counts, OnDone, OnFailed, next_count};
ghost use Rattle.io_edge.specs.Striping.{IsDevice};

use crate::Moved;
use crate::count::raised;

#[derive(Drop)]
pub(crate) struct Failures {
    pub(crate) count: u64,

    // The device of the last one.
    pub(crate) last: Option<u32>,
    ghost none: { ForNone last (count ≡ 0) },
    ghost some: { ForSome last (λ _. 0 < count) },
    ghost device: { ForSome last IsDevice },
}

impl Failures {
    pub(crate) fn none() -> Failures
        ensures count { result.count ≡ 0 }
        ensures last { result.last ≡ None }
    {
        Failures {
            count: 0,
            last: None,
        }
    }

    // Counts a call on this device, where it failed.
    pub(crate) fn note(&mut self, moved: Moved, device: u32)
        requires { IsDevice device }
        ensures count { Counts moved self.old.count self.new.count }
        ensures next { OnFailed moved (self.new.count ≡ next_count self.old.count) }
        ensures failed { OnFailed moved (self.new.last ≡ Some device) }
        ensures done { OnDone moved (self.new.last ≡ self.old.last) }
    {
        if moved == Moved::Failed {
            self.count = raised(self.count);
            self.last = Some(device);
        }
    }
}
