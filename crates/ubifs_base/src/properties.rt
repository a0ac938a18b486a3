// The sizes of the tree of LEB properties.

ghost use Rattle.std.specs.Prelude.{◌≡◌, ◌<◌, ◌≤◌, ◌^◌};
ghost use Rattle.ubifs_base.specs.Areas.{main_first};
ghost use Rattle.ubifs_base.specs.Properties as properties;
ghost use Rattle.ubifs_base.specs.PropertiesLaws.{IsHeight};

use crate::raw_geometry::RawGeometry;

const NODE_HEAD_BITS: u32 = 16 + 4;

#[tactic(auto, unfolding(crate::specs::Properties::fls))]
fn fls(n: u32) -> u32
    ensures number { result ≡ properties.fls n }
    ensures small { result ≤ 32 }
{
    32 - n.leading_zeros()
}

fn node_number_bits(geo: &RawGeometry) -> u32
    ensures number { result ≡ properties.node_number_bits geo.now }
    ensures small { result ≤ 32 }
{
    if !geo.big {
        return 0;
    }
    fls(geo.max_leb_cnt.div_ceil(4).saturating_sub(1))
}

pub(crate) fn pnode_len(geo: &RawGeometry) -> u32
    ensures number { result ≡ properties.pnode_len geo.now }
    ensures small { result ≤ 64 }
{
    let space_bits = fls(geo.leb_size).saturating_sub(3);
    (NODE_HEAD_BITS + node_number_bits(geo) + 4 * (2 * space_bits + 1)).div_ceil(8)
}

pub(crate) fn nnode_len(geo: &RawGeometry) -> u32
    ensures number { result ≡ properties.nnode_len geo.now }
    ensures small { result ≤ 64 }
{
    let lnum_bits = fls(geo.lpt_lebs);
    let offs_bits = fls(geo.leb_size.saturating_sub(1));
    (NODE_HEAD_BITS + node_number_bits(geo) + 4 * (lnum_bits + offs_bits)).div_ceil(8)
}

pub(crate) fn ltab_len(geo: &RawGeometry) -> u32
    requires { geo.now.lpt_lebs ≤ 1024 }
    ensures number { result ≡ properties.ltab_len geo.now }
    ensures small { result ≤ 16384 }
{
    (NODE_HEAD_BITS + geo.lpt_lebs * (2 * fls(geo.leb_size))).div_ceil(8)
}

pub(crate) fn pnode_count(geo: &RawGeometry) -> u32
    requires log_lebs { geo.now.log_lebs ≤ 1024 }
    requires lpt_lebs { geo.now.lpt_lebs ≤ 1024 }
    requires orph_lebs { geo.now.orph_lebs ≤ 1024 }
    ensures number { result ≡ properties.pnode_count geo.now }
    ensures small { result ≤ 2 ^ 30 }
{
    let main_first = 3 + geo.log_lebs + geo.lpt_lebs + geo.orph_lebs;
    geo.max_leb_cnt.saturating_sub(main_first).div_ceil(4)
}

pub(crate) fn tree_height(pnodes: u32) -> u32
    ensures number { result ≡ properties.tree_height pnodes }
    ensures least { IsHeight pnodes result }
    ensures small { result ≤ 17 }
{
    height_found(pnodes)
}

#[tactic(auto, unfolding(crate::specs::Properties::tree_height))]
fn height_found(pnodes: u32) -> u32
    ensures number { result ≡ properties.tree_height pnodes }
    ensures small { result ≤ 17 }
{
    let mut height = 1;
    let mut room = 4u64;
    for _try in 0..16u32 {
        if pnodes as u64 <= room {
            return height;
        }
        height += 1;
        room *= 4;
    }
    height
}

pub(crate) fn nnode_count(pnodes: u32) -> u64
    requires { pnodes ≤ 2 ^ 30 }
    ensures number { result ≡ properties.nnodes_up_to pnodes (properties.tree_height pnodes) }
    ensures small { result ≤ 2 ^ 35 }
{
    let mut level = pnodes;
    let mut count = 0;
    for _below in 0..tree_height(pnodes) {
        level = level.div_ceil(4);
        count += level as u64;
    }
    count
}

pub(crate) fn tree_len(geo: &RawGeometry) -> u64
    requires log_lebs { geo.now.log_lebs ≤ 1024 }
    requires lpt_lebs { geo.now.lpt_lebs ≤ 1024 }
    requires orph_lebs { geo.now.orph_lebs ≤ 1024 }
    ensures { result ≡ properties.tree_len geo.now }
{
    let pnodes = pnode_count(geo);
    let pnode_bytes = pnodes as u64 * pnode_len(geo) as u64;
    let nnode_bytes = nnode_count(pnodes) * nnode_len(geo) as u64;
    pnode_bytes + nnode_bytes + ltab_len(geo) as u64
}
