// The command `mkfs`.

ghost use Rattle.std.specs.Prelude.{◌≡◌, ◌<◌, ◌∷◌, [], ℕ, List, IfOk, OnErr, false, codes};
ghost use Rattle.std.specs.Fmt.{decimal};
ghost use Rattle.ubifs_base.specs.RawOf.{raw_of};
ghost use Rattle.text_lines.specs.Lines.{line_of};
ghost use Rattle.fs_model.specs.Proper.{IsProper};
ghost use Rattle.manifest_tree.specs.CopiedFiles.{IsNamedManifest};
ghost use Rattle.io_edges.specs.Keeper.{KeeperState, SameFiles};
ghost use Rattle.tree_space.specs.Laid.{IsTreeAdmitted};
ghost use Rattle.ubifs_tools.specs.Copies.{FilesStay, IsFilledManifest};
ghost use Rattle.ubifs_tools.specs.Making.{IsCopiedAs, IsFilledAs, IsImageMade, IsMkfsMade, IsMkfsEnded, IsPackedMade, IsVolumeMade, IsWrittenAs};
ghost use Rattle.ubifs_tools.specs.Pieces.{volume_image};

use crate::command::{Ended, unread};
use crate::copies::{Copies, read_copies};
use crate::image::blank_volume;
use crate::perform::{Performed, bad_geometry_line, bad_text_line, small_line};
use crate::volume_pieces::VolumePieces;
use io_edges::{KeepFault, Keeper};
use manifest_tree::{MadeManifest, NamedManifest, fill_copied, read_names};
use plain_backing::Tree;
use std::alloc::Global;
use text_lines::{line_of_three, line_of_two};
use tree_space::tree_room;
use ubi_volume::{MemVolume, save_image};
use ubifs_base::{Geometry, Memory, RawGeometry};
use whole_image::{MakeFault, an_admitted_tree_fits, make_image, make_packed, packed_geometry};

/// A manifest whose files were read, or a line that says why it isn't one, or which file wasn't read.
#[derive(Drop)]
pub(crate) enum Filled {
    Unread { line: Vec<u8> },
    BadText { line: Vec<u8> },
    Made { made: MadeManifest },
}

/// A manifest whose files were read, or a line that says which one wasn't.
#[derive(Drop)]
pub(crate) enum Copied {
    Unread { line: Vec<u8> },
    Made { made: MadeManifest },
}

/// What became of a manifest's tree: a line that says why there is no image, or the text of what was made, and the volume that holds it.
#[derive(Drop)]
pub(crate) enum MadeVolume {
    BadGeometry { line: Vec<u8> },
    Done { text: Vec<u8>, volume: MemVolume },
}

/// Reads the manifest and the files that it copies, makes the image of its tree, and writes it.
pub(crate) fn mkfs<K: Keeper>(
    alloc: Global,
    manifest: &str,
    image: &str,
    keeper: &mut K,
) -> Result<Ended, Memory>
    ensures ended { IfOk result (IsMkfsEnded (K.state keeper.old) (K.state keeper.new) manifest.now image.now) }
    ensures err { OnErr result (SameFiles (K.state keeper.old) (K.state keeper.new)) }
{
    let text = match keeper.read(manifest) {
        Ok(text) => text,
        Err(KeepFault::Memory) => return Err(Memory),
        Err(_) => return unread(alloc, manifest),
    };
    let made = match fill_manifest(alloc, &text, keeper)? {
        Filled::Unread { line } => return Ok(Ended::Unread { line }),
        Filled::BadText { line } => return Ok(Ended::BadText { line }),
        Filled::Made { made } => made,
    };
    match make_volume(alloc, &made)? {
        MadeVolume::BadGeometry { line } => Ok(Ended::BadGeometry { line }),
        MadeVolume::Done { text, volume } => write_volume(alloc, image, volume, text, keeper),
    }
}

// Writes the image of a volume, of which this is told.
fn write_volume<K: Keeper>(
    alloc: Global,
    image: &str,
    volume: MemVolume,
    text: Vec<u8>,
    keeper: &mut K,
) -> Result<Ended, Memory>
    ensures written { IfOk result (IsWrittenAs (K.state keeper.old) (K.state keeper.new) image.now (volume_image volume) text.items) }
    ensures err { OnErr result (SameFiles (K.state keeper.old) (K.state keeper.new)) }
{
    let mut lebs = VolumePieces::new(volume);
    match keeper.write_pieces(image, &mut lebs) {
        Ok(()) => Ok(Ended::Done { text }),
        Err(KeepFault::Memory) => Err(Memory),
        Err(_) => unread(alloc, image),
    }
}

// Reads a manifest's text and the files that it copies.
fn fill_manifest<K: Keeper>(alloc: Global, text: &[u8], keeper: &mut K) -> Result<Filled, Memory>
    ensures stay { FilesStay (K.state keeper.old) (K.state keeper.new) }
    ensures filled { IfOk result (IsFilledAs (K.state keeper.old) (K.state keeper.new) text.now) }
{
    let named = match read_names(alloc, text) {
        Ok(named) => named,
        Err(fault) => {
            let line = bad_text_line(alloc, b"manifest".as_slice(), fault)?;
            return Ok(Filled::BadText { line });
        }
    };
    match fill_named(alloc, named, keeper)? {
        Copied::Unread { line } => Ok(Filled::Unread { line }),
        Copied::Made { made } => Ok(Filled::Made { made }),
    }
}

/// Reads the files that a manifest copies.
pub(crate) fn fill_named<K: Keeper>(
    alloc: Global,
    named: NamedManifest,
    keeper: &mut K,
) -> Result<Copied, Memory>
    requires { IsProper named.tree }
    ensures stay { FilesStay (K.state keeper.old) (K.state keeper.new) }
    ensures copied { (text : List ℕ) → IsNamedManifest text named.volume named.copied.items named.tree → IfOk result (IsCopiedAs (K.state keeper.old) (K.state keeper.new) text) }
{
    match read_copies(alloc, &named.copied, keeper)? {
        Copies::Unread { line } => Ok(Copied::Unread { line }),
        Copies::Read { files } => {
            let mut tree = named.tree;
            fill_copied(alloc, &mut tree, &named.copied, &files)?;
            let volume = named.volume;
            Ok(Copied::Made {
                made: MadeManifest { volume, tree },
            })
        }
    }
}

/// Makes the image of a manifest's tree.
pub(crate) fn make(alloc: Global, made: &MadeManifest) -> Result<Performed, Memory>
    requires proper { IsProper made.now.tree }
    requires range { made.now.volume.main < 2147483648 }
    ensures { (files : KeeperState) → (text : List ℕ) → IsFilledManifest files text made.now.volume made.now.tree → IfOk result (IsMkfsMade files text) }
{
    match make_volume(alloc, made)? {
        MadeVolume::BadGeometry { line } => Ok(Performed::BadGeometry { line }),
        MadeVolume::Done { text, volume } => {
            let image = save_image(alloc, &volume)?;
            Ok(Performed::Done { text, image })
        }
    }
}

// Makes the volume that holds the image of a manifest's tree.
fn make_volume(alloc: Global, made: &MadeManifest) -> Result<MadeVolume, Memory>
    requires proper { IsProper made.now.tree }
    requires range { made.now.volume.main < 2147483648 }
    ensures { (files : KeeperState) → (text : List ℕ) → IsFilledManifest files text made.now.volume made.now.tree → IfOk result (IsVolumeMade files text) }
{
    let volume = made.volume;
    let raw = RawGeometry::plain(volume.leb_size, volume.min_io, volume.main, volume.fanout);
    let geometry = match Geometry::new(&raw) {
        Ok(geometry) => geometry,
        Err(fault) => {
            let line = bad_geometry_line(alloc, fault)?;
            return Ok(MadeVolume::BadGeometry { line });
        }
    };
    if volume.packed {
        return packed_image(alloc, &geometry, &made.tree);
    }
    if volume.main < 24 {
        let line = small_line(alloc, volume.main)?;
        return Ok(MadeVolume::BadGeometry { line });
    }
    admitted_image(alloc, &geometry, &made.tree)
}

// The image of a tree, or the line for one that admission refuses.
fn admitted_image(alloc: Global, geometry: &Geometry, tree: &Tree) -> Result<MadeVolume, Memory>
    requires proper { IsProper tree.now }
    requires small { geometry.now.big ≡ false }
    ensures { IfOk result (IsImageMade (raw_of geometry.now) tree.now) }
{
    let room = tree_room(alloc, geometry, tree)?;
    if room.need > room.limit {
        let line = full_line(alloc, room.need, room.limit)?;
        return Ok(MadeVolume::BadGeometry { line });
    }
    image_of_tree(alloc, geometry, tree)
}

// The image of a tree that has room. The identifier is zeros.
fn image_of_tree(alloc: Global, geometry: &Geometry, tree: &Tree) -> Result<MadeVolume, Memory>
    requires proper { IsProper tree.now }
    requires small { geometry.now.big ≡ false }
    requires admitted { IsTreeAdmitted (raw_of geometry.now) tree.now }
    ensures { IfOk result (IsImageMade (raw_of geometry.now) tree.now) }
{
    an_admitted_tree_fits();
    let mut volume = blank_volume(alloc, geometry)?;
    match make_image(alloc, &mut volume, geometry, tree, &[0; 16]) {
        Ok(()) => {
            let text = made_line(alloc, geometry.leb_cnt)?;
            Ok(MadeVolume::Done { text, volume })
        }
        Err(MakeFault::Full { .. }) => unreachable!(),
        Err(MakeFault::Crowded { .. }) => unreachable!(),
        Err(_fault) => Err(Memory),
    }
}

// The image of a tree on a volume like this one with no LEB to spare, or the line for one that would have too many. Nothing else is tested. The
// identifier is zeros.
fn packed_image(alloc: Global, geometry: &Geometry, tree: &Tree) -> Result<MadeVolume, Memory>
    requires proper { IsProper tree.now }
    requires small { geometry.now.big ≡ false }
    ensures { IfOk result (IsPackedMade (raw_of geometry.now) tree.now) }
{
    let raw = packed_geometry(alloc, geometry, tree)?;
    let geometry = match Geometry::new(&raw) {
        Ok(geometry) => geometry,
        Err(fault) => {
            let line = bad_geometry_line(alloc, fault)?;
            return Ok(MadeVolume::BadGeometry { line });
        }
    };
    let mut volume = blank_volume(alloc, &geometry)?;
    match make_packed(alloc, &mut volume, &geometry, tree, &[0; 16]) {
        Ok(()) => {
            let text = made_line(alloc, geometry.leb_cnt)?;
            Ok(MadeVolume::Done { text, volume })
        }
        Err(_fault) => Err(Memory),
    }
}

// The line for an image of so many LEBs.
fn made_line(alloc: Global, lebs: u32) -> Result<Vec<u8>, Memory>
    ensures { IfOk result (λ line. line.items ≡ line_of (codes "made" ∷ decimal lebs ∷ [])) }
{
    let lebs = lebs.to_string(alloc)?;
    Ok(line_of_two(alloc, b"made".as_slice(), lebs.as_bytes())?)
}

// The line for a tree that has no room.
fn full_line(alloc: Global, need: u64, room: u64) -> Result<Vec<u8>, Memory>
    ensures { IfOk result (λ line. line.items ≡ line_of (codes "full" ∷ decimal need ∷ decimal room ∷ [])) }
{
    let need = need.to_string(alloc)?;
    let room = room.to_string(alloc)?;
    Ok(line_of_three(alloc, b"full".as_slice(), need.as_bytes(), room.as_bytes())?)
}
