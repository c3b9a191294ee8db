//! Maps of entries whose keys ascend.
ghost use Rattle.std.specs.Prelude.{◌≡◌, true, IfOk};
ghost use Rattle.std.specs.FinMap.{is_sorted};

use std::alloc::{AllocError, Allocator};
use std::collections::BTreeMap;

/// Makes a map of entries whose keys ascend. It is filled from the greatest key down: a map looks for
/// a key from the front of each node, and so finds the place of a least one at once.
pub(crate) fn map_of<K: Ord + Drop, V: Drop, A: Allocator + Copy, T: Allocator>(
    alloc: A,
    entries: Vec<(K, V), T>,
) -> Result<BTreeMap<K, V, A>, AllocError>
    requires { is_sorted K.cmp entries.items ≡ true }
    ensures { IfOk result (λ map. map.entries ≡ entries.items) }
{
    let mut map = BTreeMap::new(alloc);
    let mut left = entries;
    while let Some((key, value)) = left.pop() {
        map.insert(key, value)?;
    }
    Ok(map)
}
