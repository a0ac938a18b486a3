// The buds that references name.

ghost use Rattle.std.specs.Prelude.{◌≡◌, IfOk, OnOk};
ghost use Rattle.bud_log.specs.Buds.{buds_of, named_also};

use bud_log::HeadAt;
use media_sys::RefNode;
use std::alloc::{AllocError, Global};

/// The buds that references name: each LEB once, in the order in which it is first named, with the head of the first reference to it
/// and the least offset. Each reference is compared with the buds before it. The error is want of memory.
pub(crate) fn named_buds(alloc: Global, references: &[RefNode]) -> Result<Vec<HeadAt>, AllocError>
    ensures { IfOk result (λ buds. buds.items ≡ buds_of references.now) }
{
    let mut buds = Vec::new(alloc);
    let mut left = references;
    'naming: while let Some((node, rest)) = left.split_first() {
        name_bud(&mut buds, *node)?;
        left = rest;
    }
    Ok(buds)
}

// Names a bud.
fn name_bud(buds: &mut Vec<HeadAt>, node: RefNode) -> Result<(), AllocError>
    ensures { OnOk result (buds.new.items ≡ named_also buds.old.items node) }
{
    for index in 0..buds.len() {
        if buds[index].lnum == node.lnum {
            buds[index].offs = buds[index].offs.min(node.offs);
            return Ok(());
        }
    }
    buds.push(HeadAt {
        head: node.head,
        lnum: node.lnum,
        offs: node.offs,
    })?;
    Ok(())
}
