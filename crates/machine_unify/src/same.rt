ghost use Rattle.std.specs.Prelude.{◌≡◌, ◌≤◌, ◌≢◌, ◌<◌, length};

use crate::found::Found;
use crate::pairs::{Asked, visit_pairs};
use machine_store::store::Store;
use tag_word::word::Word;

/// Whether two terms are identical: pair by pair, depth first and from left to right, until a pair differs. `left` is how
/// many pairs may be visited, and is lowered by each pair. `Stopped` comes exactly where it is 0 before a pair.
pub fn same(store: &mut Store, one: Word, other: Word, left: &mut u64) -> Found
    ensures less { left.new ≤ left.old }
    ensures stopped { result ≡ Found.Stopped → left.new ≡ 0 }
    ensures visited { result ≢ Found.Stopped → left.new < left.old }
    ensures work { length store.new.work ≤ length store.old.work }
{
    visit_pairs(Asked::Identity, store, one, other, left)
}
