// Entry nodes.

ghost use Rattle.std.specs.Prelude.{◌≡◌, ◌++◌, ◌∷◌, [], List, ◌+◌, ◌^◌, ◌<◌, ◌≤◌, ℕ, ◌==◌, ◌||◌, length, drop, true, if◌then◌else◌, IfOk, IfSome, IfNone};
ghost use Rattle.std.specs.List.{list_all};
ghost use Rattle.byteorder.specs.Endian.{little_number};
ghost use Rattle.ubifs_base.specs.Key.{IsKey};
ghost use Rattle.ubifs_base.specs.declared.key.Key.TheVariants.{Dent, Xent};
ghost use Rattle.ubifs_base.specs.R5.{r5_of};
ghost use Rattle.media_leaf.specs.Entry.{IsDentNode, is_name_byte, entry_at, entry_fields, entry_tail, entry_type, is_entry, is_named, name_of, read_entry};
ghost use Rattle.node_fields.specs.Fields.{AllFit, spelling, key_fields};
ghost use Rattle.media_leaf.specs.LeafNode.{IsDent, entry, written};
ghost use Rattle.node_fields.specs.Opening.{decoded};

use node_fields::{
    opened_node, put_key, put_name, put_u8, put_u16, put_u32, put_u64, u16_at, u32_at, u64_at,
};
use std::alloc::Global;
use ubifs_base::{Head, Key, Memory, Name, NodeType, frame, r5};

/// A name in a directory, or the name of an attribute: `ubifs_dent_node` of ubifs-media.h. An `inum`
/// of 0 says that the entry is deleted. The kind is that of the inode.
#[derive(Debug, Drop)]
pub struct DentNode {
    pub dir: u32,
    pub inum: u32,
    pub kind: u8,
    pub name: Name,
    pub attribute: bool,
}

const KIND: u8 = NodeType::Entry as u8;

const ATTRIBUTE_KIND: u8 = NodeType::Attribute as u8;

impl DentNode {
    /// How many bytes the node takes, header and all.
    pub fn len(&self) -> u32
        requires { IsDentNode self.now }
        ensures { result ≡ 57 + length self.now.name }
    {
        57 + self.name.len() as u32
    }

    /// Writes the node's one spelling, in which all that is ignored is 0, over all of `out`. A group
    /// type is 0 for none, 1 in a group, 2 for the last of one.
    pub fn encode(&self, sqnum: u64, group: u8, out: &mut [u8])
        requires node { IsDentNode self.now }
        requires group { group ≤ 2 }
        requires room { length out.old ≡ 57 + length self.now.name }
        ensures spelling { out.new ≡ written sqnum group (entry self.now) }
        ensures grammar { IsDent out.new sqnum group self.now }
    {
        self.encode_with(self.name.as_slice(), sqnum, group, out);
    }

    /// As `encode`, of the node with this name in place of its own, so that what stands elsewhere needn't be
    /// copied into a node.
    pub fn encode_with(&self, name: &[u8], sqnum: u64, group: u8, out: &mut [u8])
        requires node { IsDentNode (record self.now { name = name.now }) }
        requires group { group ≤ 2 }
        requires room { length out.old ≡ 57 + length name.now }
        ensures spelling { out.new ≡ written sqnum group (entry (record self.now { name = name.now })) }
        ensures grammar { IsDent out.new sqnum group (record self.now { name = name.now }) }
    {
        write_body(out.split_at_mut(24).1, self, name);
        let len = 57 + name.len() as u32;
        let kind = kind_of(self);
        frame(
            out,
            &Head {
                sqnum,
                len,
                kind,
                group,
            },
        );
    }

    /// The node that the bytes are, all of them; none where they are no such node. The error is
    /// want of memory.
    pub fn decode(alloc: Global, bytes: &[u8]) -> Result<Option<DentNode>, Memory>
        ensures found { IfOk result (λ r. IfSome r (λ node. (sqnum : ℕ) × (group : ℕ) × IsDent bytes.now sqnum group node)) }
        ensures none { IfOk result (λ r. IfNone r ((sqnum group : ℕ) (node : _) → IsDent bytes.now sqnum group node → ⊥)) }
    {
        decode_exactly(alloc, bytes)
    }
}

fn kind_of(node: &DentNode) -> u8
    ensures { result ≡ entry_type node.now }
{
    if node.attribute { ATTRIBUTE_KIND } else { KIND }
}

fn hash_of(name: &[u8]) -> u32
    ensures value { result ≡ r5_of name.now }
    ensures bits { result < 2 ^ 29 }
{
    r5(name)
}

fn key_of(attribute: bool, dir: u32, hash: u32) -> Key
    requires { hash < 2 ^ 29 }
    ensures value { result ≡ (if attribute then Xent dir hash else Dent dir hash) }
    ensures fits { IsKey result }
{
    if attribute {
        Key::Xent { ino: dir, hash }
    } else {
        Key::Dent { dir, hash }
    }
}

// From the last field to the first, so that what stands behind a field is already as it stays.
#[tactic(auto, unfolding(node_fields::specs::Fields::spelling))]
fn write_body(body: &mut [u8], node: &DentNode, name: &[u8])
    requires node { IsDentNode (record node.now { name = name.now }) }
    requires room { length body.old ≡ 33 + length name.now }
    ensures spelling { body.new ≡ spelling (entry_fields (record node.now { name = name.now })) (name.now ++ (0 ∷ [])) }
    ensures fits { AllFit (entry_fields (record node.now { name = name.now })) }
{
    put_name(body, 32, name);
    put_u32(body, 28, 0);
    put_u16(body, 26, name.len() as u16);
    put_u8(body, 25, node.kind);
    put_u8(body, 24, 0);
    put_u64(body, 16, node.inum as u64);
    let hash = hash_of(name);
    put_key(body, &key_of(node.attribute, node.dir, hash));
}

fn decode_exactly(alloc: Global, bytes: &[u8]) -> Result<Option<DentNode>, Memory>
    ensures { IfOk result (λ r. r ≡ decoded read_entry bytes.now) }
{
    let Some((kind, body)) = opened_node(bytes) else {
        return Ok(None);
    };
    read_body(alloc, kind, body)
}

#[tactic(auto, unfolding(crate::specs::Entry::read_entry))]
fn read_body(alloc: Global, kind: u8, body: &[u8]) -> Result<Option<DentNode>, Memory>
    ensures { IfOk result (λ r. r ≡ read_entry kind body.now) }
{
    if !is_entry_body(kind, body) {
        return Ok(None);
    }
    Ok(Some(node_at(alloc, kind, body)?))
}

/// Whether a type and a body are an entry node.
#[tactic(auto, unfolding(crate::specs::Entry::is_entry))]
pub(crate) fn is_entry_body(kind: u8, body: &[u8]) -> bool
    ensures test { result ≡ is_entry kind body.now }
    ensures room { result ≡ true → 33 + little_number 2 (drop 26 body.now) ≡ length body.now }
    ensures inum { result ≡ true → little_number 8 (drop 16 body.now) < 2 ^ 32 }
{
    if !is_entry_kind(kind) {
        return false;
    }
    if body.len() < 33 {
        return false;
    }
    if u64_at(body, 16) > 0xffff_ffff {
        return false;
    }
    if body[25] > 6 {
        return false;
    }
    let size = u16_at(body, 26);
    if size < 1 {
        return false;
    }
    if size > 255 {
        return false;
    }
    if body.len() - 33 != size as usize {
        return false;
    }
    if body[32 + size as usize] != 0 {
        return false;
    }
    is_named_body(kind, body, name_in(body))
}

fn name_in(body: &[u8]) -> &[u8]
    requires { 33 + little_number 2 (drop 26 body.now) ≡ length body.now }
    ensures { result.now ≡ name_of body.now }
{
    let size = u16_at(body, 26);
    body.split_at(32).1.split_at(size as usize).0
}

fn is_entry_kind(kind: u8) -> bool
    ensures { result ≡ (kind == 2 || kind == 3) }
{
    kind == KIND || kind == ATTRIBUTE_KIND
}

#[tactic(auto, unfolding(crate::specs::Entry::is_named))]
fn is_named_body(kind: u8, body: &[u8], name: &[u8]) -> bool
    requires { 33 ≤ length body.now }
    ensures { result ≡ is_named kind body.now name.now }
{
    if !has_name_bytes(name) {
        return false;
    }
    let second = u32_at(body, 4);
    if second / (1 << 29) != kind as u32 {
        return false;
    }
    if second % (1 << 29) != r5(name) {
        return false;
    }
    true
}

#[tactic(auto, unfolding(crate::specs::Entry::entry_at))]
fn node_at(alloc: Global, kind: u8, body: &[u8]) -> Result<DentNode, Memory>
    requires room { 33 + little_number 2 (drop 26 body.now) ≡ length body.now }
    requires inum { little_number 8 (drop 16 body.now) < 2 ^ 32 }
    ensures { IfOk result (λ node. node ≡ entry_at kind body.now) }
{
    Ok(DentNode {
        dir: u32_at(body, 0),
        inum: u64_at(body, 16) as u32,
        kind: body[25],
        name: Name::from_slice(alloc, name_in(body))?,
        attribute: kind == ATTRIBUTE_KIND,
    })
}

fn has_name_bytes(name: &[u8]) -> bool
    ensures { result ≡ list_all is_name_byte name.now }
{
    name.iter().all(|byte| *byte != 0 && *byte != b'/')
}
