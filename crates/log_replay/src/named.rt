// The LEBs that the log names.

ghost use Rattle.std.specs.Prelude.{◌≡◌, ℕ, cond, is_some, map, Some, IfOk, OnOk};
ghost use Rattle.std.specs.BTreeMap.{get, is_at};
ghost use Rattle.std.specs.Ordering.{nat_cmp};
ghost use Rattle.journal_scan.specs.Places.{named_by};
ghost use Rattle.log_replay.specs.Named.{IsNamed, in_named, lower};

use index_tree::Leaf;
use journal_scan::BudText;
use std::alloc::Global;
use std::collections::BTreeMap;
use ubifs_base::Memory;

// From which offset on each LEB is named.
pub(crate) fn named_lebs(alloc: Global, buds: &[BudText]) -> Result<BTreeMap<u32, u32>, Memory>
    ensures { IfOk result (λ named. IsNamed (map named_by buds.now) named) }
{
    let Some((first, rest)) = buds.split_first() else {
        return Ok(BTreeMap::new(alloc));
    };
    let mut named = named_lebs(alloc, rest)?;
    name_leb(&mut named, first.lnum, first.from)?;
    Ok(named)
}

// Names a LEB from an offset on.
fn name_leb(named: &mut BTreeMap<u32, u32>, lnum: u32, from: u32) -> Result<(), Memory>
    ensures { OnOk result ((q : ℕ) → get nat_cmp named.new q ≡ cond (is_at (nat_cmp lnum) q) (Some (lower from (get nat_cmp named.old q))) (get nat_cmp named.old q)) }
{
    let low = match named.get(&lnum) {
        Some(other) => from.min(*other),
        None => from,
    };
    named.insert(lnum, low)?;
    Ok(())
}

// Whether a leaf's place is named.
pub(crate) fn is_in_bud(named: &BTreeMap<u32, u32>, leaf: &Leaf) -> bool
    ensures { result ≡ in_named named.now leaf.now }
{
    match named.get(&leaf.lnum) {
        Some(from) => *from <= leaf.offs,
        None => false,
    }
}
