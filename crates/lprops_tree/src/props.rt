// The properties of all main LEBs.

use crate::candidate::{free_candidate, leaf_candidate, pick, used_bytes};
use crate::totals::{Totals, exchange, totals_of_leb};
use crate::tournament::Tournament;
use media_lpt::{LebKind, Lprop};
use std::alloc::Global;
use std::marker::Model;
use ubifs_base::{Geometry, Memory};

/// What is known of each main LEB: its properties, and what it is used for. Contracts see it as a `MainArea`, the flat list of
/// specs/MainArea.antt. Only `from_list` takes memory.
#[derive(Drop)]
pub struct Props {
    geo: Geometry,
    lebs: Vec<(Lprop, LebKind)>,
    free: Tournament,
    leaves: Tournament,
    totals: Totals,
}

impl Model for Props {
    ghost use Rattle.ubifs_base.specs.RawOf.{raw_of};
    ghost use Rattle.lprops_tree.specs.MainArea.{MainArea};
    ghost use Rattle.lprops_tree.specs.PropsTree.{IsPropsTree};

    ghost Value = { MainArea };

    ghost view = { λ p. record { geo = raw_of p.geo; lebs = p.lebs.items } };

    ghost invariant = { λ p. IsPropsTree (record { geo = raw_of p.geo; lebs = p.lebs.items }) p.free p.leaves p.totals };
}

// What is said of a LEB of which nothing is known yet: it adds nothing to the totals, and may not be picked.
const UNKNOWN: (Lprop, LebKind) = (
    Lprop {
        free: 0,
        dirty: 0,
        index: true,
    },
    LebKind::Taken,
);

impl Props {
    ghost use Rattle.std.specs.Prelude.{◌≡◌, ℕ, length, replicate, All, IfOk, IfSome, IsNone};
    ghost use Rattle.ubifs_base.specs.Areas.{main_lebs};
    ghost use Rattle.ubifs_base.specs.RawOf.{raw_of};
    ghost use Rattle.lprops_tree.specs.MainArea.{IsMainLeb, IsWithinLeb, leb_at, with_leb, unknown};
    ghost use Rattle.lprops_tree.specs.Picks.{IsFreeLeb, IsLowestFree, IsCollectable, IsVictim};
    ghost use Rattle.lprops_tree.specs.Totals.{totals_of};

    /// The properties that the list says, of one main LEB after another.
    pub fn from_list(
        alloc: Global,
        geo: &Geometry,
        list: &[(Lprop, LebKind)],
    ) -> Result<Props, Memory>
        requires count { length list.now ≡ main_lebs (raw_of geo.now) }
        requires within { All (λ leb. IsWithinLeb (raw_of geo.now) leb.0) list.now }
        ensures { IfOk result (λ props. props ≡ record { geo = raw_of geo.now; lebs = list.now }) }
    {
        let mut props = Props::unknown(alloc, geo)?;
        let mut lnum = geo.main_first();
        for leb in list {
            props.set(lnum, leb.0, leb.1);
            lnum += 1;
        }
        Ok(props)
    }

    // Nothing is known of any LEB.
    fn unknown(alloc: Global, geo: &Geometry) -> Result<Props, Memory>
        ensures { IfOk result (λ props. props ≡ record { geo = raw_of geo.now; lebs = replicate (main_lebs (raw_of geo.now)) unknown }) }
    {
        let count = geo.main_lebs() as usize;
        Ok(Props {
            geo: *geo,
            lebs: vec![in alloc; UNKNOWN; count]?,
            free: Tournament::new(alloc, count)?,
            leaves: Tournament::new(alloc, count)?,
            totals: Totals {
                free: 0,
                dirty: 0,
                used: 0,
                empty: 0,
                index: 0,
            },
        })
    }

    /// What is known of a main LEB. Takes no memory.
    pub fn get(&self, lnum: u32) -> (Lprop, LebKind)
        requires { IsMainLeb self.now.geo lnum }
        ensures value { result ≡ leb_at self.now lnum }
        ensures within { IsWithinLeb self.now.geo result.0 }
    {
        self.lebs[(lnum - self.geo.main_first()) as usize]
    }

    /// Sets what is known of a main LEB, and leaves all others. Takes no memory.
    pub fn set(&mut self, lnum: u32, prop: Lprop, kind: LebKind)
        requires main { IsMainLeb self.old.geo lnum }
        requires within { IsWithinLeb self.old.geo prop }
        ensures { self.new ≡ with_leb self.old lnum (prop, kind) }
    {
        let at = (lnum - self.geo.main_first()) as usize;
        let old = self.lebs[at];
        let less = totals_of_leb(&self.geo, old.0, old.1);
        let more = totals_of_leb(&self.geo, prop, kind);
        self.totals = exchange(&self.totals, &less, &more);
        self.free.put(at, free_candidate(lnum, kind));
        let used = used_bytes(&self.geo, prop);
        self.leaves.put(at, leaf_candidate(used, lnum, kind));
        self.lebs[at] = (prop, kind);
    }

    /// The lowest free LEB, if one is free. Takes no memory.
    pub fn pick_empty(&self) -> Option<u32>
        ensures found { IfSome result (λ lnum. IsLowestFree self.now lnum) }
        ensures none { IsNone result → (lnum : ℕ) → IsFreeLeb self.now lnum → ⊥ }
    {
        pick(self.free.best(), 0)
    }

    /// Of the leaf LEBs with at most so many used bytes the one with the fewest, and of several such the lowest, if there is
    /// one (Hunter 2008, garbage collection). Takes no memory.
    pub fn pick_victim(&self, most: u32) -> Option<u32>
        ensures found { IfSome result (λ lnum. IsVictim self.now most lnum) }
        ensures none { IsNone result → (lnum : ℕ) → IsCollectable self.now most lnum → ⊥ }
    {
        pick(self.leaves.best(), most)
    }

    /// The sums over all main LEBs. Takes no memory.
    pub fn totals(&self) -> Totals
        ensures { result ≡ totals_of self.now }
    {
        self.totals
    }
}
