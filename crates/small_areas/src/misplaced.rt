// Addresses that don't lie in their areas.

ghost use Rattle.std.specs.Prelude.{◌≡◌};
ghost use Rattle.ubifs_base.specs.RawOf.{raw_of};
ghost use Rattle.small_areas.specs.Addresses.{addresses_of, first_past, past_limit, in_area, in_leb};

use media_sys::Master;
use ubifs_base::Geometry;

/// An address that passes its limit. `wanted` is the first LEB of its area where the address lies before it, else the
/// one behind the area's last; for an offset it is the greatest at which what stands there fits the LEB.
#[derive(Clone, Copy, Debug, PartialEq, Eq)]
pub struct Misplaced {
    pub wanted: u32,
    pub found: u32,
}

/// The first address of a master, in the order of its fields, that doesn't lie in its area; none where all lie there.
/// Addresses that a mount doesn't read aren't tested.
pub fn misplaced_address(master: &Master, geometry: &Geometry) -> Option<Misplaced>
    ensures { result ≡ first_past (addresses_of (raw_of geometry.now) master.now) }
{
    let main = geometry.main_first();
    let lpt = geometry.lpt_first();
    let orphans = geometry.orph_first();
    let size = geometry.leb_size;
    let table_place = test_offset(master.ltab_offs, size.saturating_sub(geometry.ltab_len()));
    let table = test_area(master.ltab_lnum, lpt, orphans).or(table_place);
    let tree_place = test_offset(master.lpt_offs, size.saturating_sub(geometry.nnode_len()));
    let tree = test_area(master.lpt_lnum, lpt, orphans).or(tree_place.or(table));
    let head_place = test_offset(master.ihead_offs, size);
    let head = test_area(master.ihead_lnum, main, geometry.leb_cnt).or(head_place.or(tree));
    let root_place = test_offset(master.root_offs, size.saturating_sub(master.root_len));
    let root = test_area(master.root_lnum, main, geometry.leb_cnt).or(root_place.or(head));
    test_area(master.log_lnum, 3, lpt).or(root)
}

// A LEB of the area that begins at `first` and ends before `past`.
fn test_area(lnum: u32, first: u32, past: u32) -> Option<Misplaced>
    ensures { result ≡ past_limit (in_area lnum first past) }
{
    if lnum < first {
        return Some(Misplaced {
            wanted: first,
            found: lnum,
        });
    }
    if lnum < past {
        return None;
    }
    Some(Misplaced {
        wanted: past,
        found: lnum,
    })
}

// An offset of at most so many bytes.
fn test_offset(offs: u32, most: u32) -> Option<Misplaced>
    ensures { result ≡ past_limit (in_leb offs most) }
{
    if offs > most {
        return Some(Misplaced {
            wanted: most,
            found: offs,
        });
    }
    None
}
