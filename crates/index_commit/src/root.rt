// The root of an index that is written.

ghost use Rattle.std.specs.Prelude.{◌≡◌, [], ℕ, List};
ghost use Rattle.index_media.specs.Clean.{placed_of};
ghost use Rattle.index_media.specs.KeyedRow.{all_clean};
ghost use Rattle.index_cache.specs.Paged.{dirty_of, fanout_of, frozen_of};
ghost use Rattle.index_commit.specs.Standing.{AreOutside};
ghost use Rattle.index_commit.specs.Written.{IsRootOf};

use index_cache::PagedIndex;
use media_sys::Branch;

/// The branch to the root of a frozen index no node of which is dirty; none where it is empty. Where its nodes stand, the index stands
/// from there on.
pub fn committed_root(index: &PagedIndex) -> Option<Branch>
    requires none { dirty_of index.now ≡ [] }
    ensures clean { frozen_of index.now ≡ all_clean (placed_of (frozen_of index.now)) }
    ensures root { (contents : ℕ → List ℕ) (lebs : List ℕ) → AreOutside contents lebs (frozen_of index.now) → IsRootOf contents (fanout_of index.now) (frozen_of index.now) result }
{
    match index.next_dirty() {
        None => index.frozen_branch(),
        Some(_found) => None,
    }
}
