//! A list of counts, of which one is raised, and those before it are summed, in a single walk of O(log n).
ghost use Rattle.std.specs.Prelude.{◌≡◌, ℕ, ◌+◌, ◌-◌, ◌*◌, ◌<◌, ◌≤◌, ◌^◌, length, take, drop, slice_index_or, IfOk};
ghost use Rattle.stack_dist.specs.Tree.{total, AreZeros, AreSums, IsPower, raised, if_odd as count_if_odd};

use super::NoMemory;
use std::alloc::Global;
use std::marker::Model;

/// A list of counts. Contracts see the list.
#[derive(Drop)]
pub struct CountTree {
    /// The counts from node `size` on. Before them node k, from 1 on, has the sum of the nodes 2k and 2k + 1.
    sums: Vec<u32>,
    /// A power of 2.
    size: usize,
}

impl Model for CountTree {
    ghost use Rattle.std.specs.Prelude.{ℕ, List};
    ghost use Rattle.stack_dist.specs.Tree.{counts_of, IsTree};

    ghost Value = { List ℕ };

    ghost view = { counts_of };

    ghost invariant = { IsTree };
}

impl CountTree {
    /// At least as many counts as given, all 0.
    pub fn new(alloc: Global, least: usize) -> Result<CountTree, NoMemory>
        requires { least ≤ 4_000_000 }
        ensures { IfOk result (AreZeros least (2 * least + 2)) }
    {
        let mut size = 2;
        while size < least {
            size *= 2;
        }
        let sums = vec![in alloc; 0; size + size]?;
        Ok(CountTree { sums, size })
    }

    /// How many counts there are.
    pub fn len(&self) -> usize
        ensures { result ≡ length self.now }
    {
        self.size
    }

    /// Raises a count by one, and answers the sum of those before it.
    pub fn raise(&mut self, at: usize) -> u32
        requires within { at < length self.old }
        requires fits { total self.old < 2 ^ 32 - 1 }
        ensures before { result ≡ total (take at self.old) }
        ensures raised { self.new ≡ raised self.old at }
    {
        raise(&mut self.sums, self.size, at)
    }
}

/// Adds one to a count, and to each sum above it, and answers the sum of the counts before it: on the way up
/// these are the nodes to the left of the walk.
fn raise(sums: &mut [u32], size: usize, at: usize) -> u32
    requires room { length sums.old ≡ size + size }
    requires power { IsPower size }
    requires some { 1 < size }
    requires within { at < size }
    requires sums { AreSums size sums.old }
    requires fits { total (drop size sums.old) < 2 ^ 32 - 1 }
    ensures sums { AreSums size sums.new }
    ensures counts { drop size sums.new ≡ raised (drop size sums.old) at }
    ensures before { result ≡ total (take at (drop size sums.old)) }
{
    let leaf = size + at;
    let mut before = if_odd(leaf, sums[leaf - 1]);
    sums[leaf] += 1;
    let mut node = leaf / 2;
    while node > 1 {
        before += if_odd(node, sums[node - 1]);
        sums[node] += 1;
        node /= 2;
    }
    sums[1] += 1;
    before
}

/// The count, or 0 where the number is even. It is made by shifts, since a branch would be taken at random.
fn if_odd(n: usize, count: u32) -> u32
    ensures { result ≡ count_if_odd n count }
{
    ((u64::from(count) << (32 * (n % 2))) >> 32) as u32
}
