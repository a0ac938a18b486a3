// The levels of a tree are laid into a buffer, one behind another, the pnodes first.

ghost use Rattle.std.specs.Prelude.{◌≡◌, ◌+◌, ◌*◌, ◌<◌, ◌≤◌, ◌≢◌, ◌^◌, ℕ, [], ◌∷◌, length, take, get_or};
ghost use Rattle.ubifs_base.specs.Areas.{lpt_first, orph_first};
ghost use Rattle.ubifs_base.specs.Properties.{quarter, pnode_len, nnode_len, pnode_count, tree_height, nnodes_up_to, level_nodes, tree_len};
ghost use Rattle.ubifs_base.specs.RawOf.{raw_of};
ghost use Rattle.media_lpt.specs.Nodes.{IsPnode, IsNnode};
ghost use Rattle.lpt_area.specs.Laid.{places, items_from, fours, Grown, IsLevelLaid, ArePnodesLaid, AreLevelsLaid, past_main};
ghost use Rattle.lpt_area.specs.Tree.{HasNnode, no_place, Row, alone};
ghost use Rattle.lpt_area.specs.Written.{AreProps};

use crate::nodes::{lay_nnode, lay_pnode};
use crate::rows::NO_PLACE;
use media_lpt::{Lprop, LptPlace, Nnode, Pnode};
use ubifs_base::Geometry;

const PAST_MAIN: Lprop = Lprop {
    free: 0,
    dirty: 0,
    index: false,
};

/// The nodes of a level: the first one's offset, the length of each, and how many there are, one behind another.
#[derive(Clone, Copy)]
pub(crate) struct Level {
    pub(crate) offs: u32,
    pub(crate) len: u32,
    pub(crate) count: u32,
}

impl Level {
    ghost use Rattle.lpt_area.specs.Tree.{no_place};

    // The place of a node of this level, or none past its end.
    fn place(&self, lnum: u32, at: u32) -> LptPlace
        requires { self.now.offs + self.now.count * self.now.len < 2 ^ 32 }
        ensures { result ≡ get_or (places lnum self.now.offs self.now.len self.now.count) at no_place }
    {
        if at >= self.count {
            return NO_PLACE;
        }
        LptPlace {
            lnum,
            offs: self.offs + at * self.len,
        }
    }
}

// Lays all pnodes from the buffer's start on.
pub(crate) fn lay_pnodes(geo: &Geometry, props: &[Lprop], out: &mut [u8]) -> Level
    requires props { AreProps (raw_of geo.now) props.now }
    requires room { length out.old ≡ geo.now.leb_size }
    ensures offs { result.offs ≡ 0 }
    ensures len { result.len ≡ pnode_len (raw_of geo.now) }
    ensures count { result.count ≡ pnode_count (raw_of geo.now) }
    ensures laid { ArePnodesLaid (raw_of geo.now) props.now out.new (pnode_count (raw_of geo.now)) }
    ensures size { length out.new ≡ length out.old }
{
    let len = geo.pnode_len();
    let count = geo.pnode_count();
    for i in 0..count {
        let node = pnode_of(geo, props, i as usize);
        lay_pnode(geo, &node, out, i as usize * len as usize);
    }
    Level {
        offs: 0,
        len,
        count,
    }
}

// The pnode of this number.
fn pnode_of(geo: &Geometry, props: &[Lprop], number: usize) -> Pnode
    requires props { AreProps (raw_of geo.now) props.now }
    requires number { number < 2 ^ 32 }
    ensures node { IsPnode (raw_of geo.now) result }
    ensures says { result.props ≡ items_from past_main 4 (4 * number) props.now }
{
    let at = 4 * number;
    Pnode {
        num: 0,
        props: [
            prop_at(props, at),
            prop_at(props, at + 1),
            prop_at(props, at + 2),
            prop_at(props, at + 3),
        ],
    }
}

// The properties of the main LEB of this number.
fn prop_at(props: &[Lprop], at: usize) -> Lprop
    ensures { result ≡ get_or props.now at past_main }
{
    match props.get(at) {
        Some(prop) => *prop,
        None => PAST_MAIN,
    }
}

// Lays the levels of nnodes behind the pnodes, and gives the root's.
pub(crate) fn lay_levels(geo: &Geometry, lnum: u32, pnodes: Level, out: &mut [u8]) -> Level
    requires low { lpt_first (raw_of geo.now) ≤ lnum }
    requires high { lnum < orph_first (raw_of geo.now) }
    requires offs { pnodes.offs ≡ 0 }
    requires len { pnodes.len ≡ pnode_len (raw_of geo.now) }
    requires count { pnodes.count ≡ pnode_count (raw_of geo.now) }
    requires room { length out.old ≡ geo.now.leb_size }
    ensures count { result.count ≡ 1 }
    ensures len { result.len ≡ nnode_len (raw_of geo.now) }
    ensures laid { AreLevelsLaid (raw_of geo.now) lnum out.old out.new result.offs result.len result.count (tree_height (pnode_count (raw_of geo.now))) }
    ensures size { length out.new ≡ length out.old }
{
    let mut level = pnodes;
    for _below in 0..geo.tree_height() {
        level = lay_nnodes(geo, lnum, &level, out);
    }
    level
}

// Lays the nnodes over a level behind it.
fn lay_nnodes(geo: &Geometry, lnum: u32, below: &Level, out: &mut [u8]) -> Level
    requires low { lpt_first (raw_of geo.now) ≤ lnum }
    requires high { lnum < orph_first (raw_of geo.now) }
    requires some { 0 < below.now.len }
    requires room { below.now.offs + below.now.count * below.now.len + quarter below.now.count * nnode_len (raw_of geo.now) ≤ geo.now.leb_size }
    requires size { length out.old ≡ geo.now.leb_size }
    ensures offs { result.offs ≡ below.now.offs + below.now.count * below.now.len }
    ensures len { result.len ≡ nnode_len (raw_of geo.now) }
    ensures count { result.count ≡ quarter below.now.count }
    ensures laid { IsLevelLaid (raw_of geo.now) lnum (places lnum below.now.offs below.now.len below.now.count) out.old out.new result.offs result.len result.count }
    ensures size { length out.new ≡ length out.old }
{
    let offs = below.offs + below.count * below.len;
    let len = geo.nnode_len();
    let count = below.count.div_ceil(4);
    for i in 0..count {
        let node = nnode_of(geo, lnum, below, i);
        lay_nnode(geo, &node, out, offs as usize + i as usize * len as usize);
    }
    Level { offs, len, count }
}

// The nnode of this number over a level.
fn nnode_of(geo: &Geometry, lnum: u32, below: &Level, number: u32) -> Nnode
    requires low { lpt_first (raw_of geo.now) ≤ lnum }
    requires high { lnum < orph_first (raw_of geo.now) }
    requires some { 0 < below.now.len }
    requires room { below.now.offs + below.now.count * below.now.len ≤ geo.now.leb_size }
    requires number { number < 2 ^ 29 }
    ensures node { IsNnode (raw_of geo.now) result }
    ensures says { result.places ≡ items_from no_place 4 (4 * number) (places lnum below.now.offs below.now.len below.now.count) }
{
    let _size = geo.leb_size;
    let at = 4 * number;
    Nnode {
        num: 0,
        places: [
            below.place(lnum, at),
            below.place(lnum, at + 1),
            below.place(lnum, at + 2),
            below.place(lnum, at + 3),
        ],
    }
}
