//! For each reference, when its page is used again. Belady's rule needs nothing else.
ghost use Rattle.std.specs.Prelude.{◌≡◌, ℕ, ◌+◌, ◌<◌, ◌≤◌, length, drop, slice_index, slice_index_or, vec_len, Option, IfOk, None};
ghost use Rattle.page_opt.specs.Cache.{next_at, AreNextUses};

use crate::NoMemory;
use std::alloc::Global;
use std::collections::HashMap;

/// For each reference the place of the next one to the same page, if there is one: places count from 0. At most 4,000,000
/// references. The one error is that there is no memory left.
pub fn next_uses(alloc: Global, refs: &[u32]) -> Result<Vec<Option<u32>>, NoMemory>
    requires { length refs.now ≤ 4000000 }
    ensures { IfOk result (λ next. AreNextUses refs.now next.items) }
{
    let mut next = vec![in alloc; None; refs.len()]?;
    let mut seen = HashMap::new(alloc);
    for i in (0..refs.len()).rev() {
        next[i] = seen.insert(refs[i], i as u32)?;
    }
    Ok(next)
}
