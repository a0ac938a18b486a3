// Nodes are laid into a buffer.

ghost use Rattle.std.specs.Prelude.{◌≡◌, ◌+◌, ◌*◌, ◌<◌, ◌≤◌, ◌≢◌, length};
ghost use Rattle.ubifs_base.specs.Properties.{pnode_len, nnode_len};
ghost use Rattle.ubifs_base.specs.RawOf.{raw_of};
ghost use Rattle.media_lpt.specs.Nodes.{IsPnode, IsPnodeBytes, IsNnode, IsNnodeBytes};
ghost use Rattle.lpt_area.specs.Laid.{IsLaid};

use media_lpt::{Nnode, Pnode};
use ubifs_base::Geometry;

// Lays a pnode at this offset.
pub(crate) fn lay_pnode(geo: &Geometry, node: &Pnode, out: &mut [u8], offs: usize)
    requires node { IsPnode (raw_of geo.now) node.now }
    requires room { offs + pnode_len (raw_of geo.now) ≤ length out.old }
    ensures { IsLaid (λ bytes. IsPnodeBytes (raw_of geo.now) bytes node.now) out.old out.new offs (pnode_len (raw_of geo.now)) }
{
    let len = geo.pnode_len() as usize;
    let (_before, rest) = out.split_at_mut(offs);
    let (place, _behind) = rest.split_at_mut(len);
    node.encode(geo, place);
}

// Lays an nnode at this offset.
pub(crate) fn lay_nnode(geo: &Geometry, node: &Nnode, out: &mut [u8], offs: usize)
    requires node { IsNnode (raw_of geo.now) node.now }
    requires room { offs + nnode_len (raw_of geo.now) ≤ length out.old }
    ensures { IsLaid (λ bytes. IsNnodeBytes (raw_of geo.now) bytes node.now) out.old out.new offs (nnode_len (raw_of geo.now)) }
{
    let len = geo.nnode_len() as usize;
    let (_before, rest) = out.split_at_mut(offs);
    let (place, _behind) = rest.split_at_mut(len);
    node.encode(geo, place);
}
