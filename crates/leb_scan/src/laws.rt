// What bytes can be the text of.

ghost use Rattle.std.specs.Prelude.{◌≡◌, ◌%◌, All, List, ℕ, ◌∷◌, [], ◌++◌, length, take, drop, IsTrue};
ghost use Rattle.ubifs_base.specs.NodeLaws.{IsBytes};
ghost use Rattle.leb_scan.specs.Gaps.{padding_found};
ghost use Rattle.leb_scan.specs.Meant.{AreUntorn, IsMeant, IsUntorn};
ghost use Rattle.leb_scan.specs.Text.{Begins, Stand, is_blank, IsText, nodes_of};
ghost use Rattle.leb_scan.specs.declared.item.Item.{Item as AnItem};
ghost use Rattle.leb_scan.specs.declared.tail.Tail.{Tail as ATail};

/// From a place on, a LEB has at most one text.
pub fn one_text()
    ensures { (leb : List ℕ) (from end1 end2 : ℕ) (items1 items2 : List AnItem) (tail1 tail2 : ATail) → IsBytes leb
        → IsText leb from items1 end1 tail1 → IsText leb from items2 end2 tail2 → (items1 ≡ items2) × (end1 ≡ end2) × (tail1 ≡ tail2) }
{}

/// In a text from a multiple of 8 on, each node stands at a multiple of 8.
pub fn aligned_nodes()
    ensures { (leb : List ℕ) (from end : ℕ) (items : List AnItem) (tail : ATail) → IsBytes leb → from % 8 ≡ 0 → IsText leb from items end tail
        → All (λ found. found.offs % 8 ≡ 0) (nodes_of items) }
{}

/// The premise on checksums holds of items that were left untorn: of those that end where the bytes are still as they were
/// meant, and of all in the meant bytes. It asks nothing of the gap behind a padding node.
pub fn untorn_is_meant()
    ensures items { (meant left : List ℕ) (from : ℕ) (items : List AnItem) → AreUntorn meant from items left → IsMeant meant from items left }
    ensures front { (meant left : List ℕ) (from end : ℕ) (items : List AnItem) → take end left ≡ take end meant → Stand meant from items end → IsMeant meant from items left }
    ensures same { (meant : List ℕ) (from : ℕ) (items : List AnItem) → IsMeant meant from items meant }
    ensures gap { (meant left : List ℕ) (place pad_len : ℕ) → take 28 (drop place left) ≡ take 28 (drop place meant) → IsMeant meant place (AnItem.Padding (padding_found place pad_len) pad_len ∷ []) left }
{}

/// The premise holds of what was left unwritten: nothing is torn where nothing is written yet.
pub fn unwritten_is_meant()
    ensures { (meant left : List ℕ) (from end : ℕ) (items : List AnItem) → IsBytes left → IsTrue (is_blank (drop from left)) → Stand meant from items end → IsMeant meant from items left }
{}

/// Under the premise, what a cut left shows nothing at the place of a meant item but that item, untorn.
pub fn meant_item()
    ensures { (meant left : List ℕ) (from place : ℕ) (before more : List AnItem) (item other : AnItem) → IsBytes left → length left ≡ length meant
        → IsMeant meant from (before ++ item ∷ more) left → Stand meant from before place → Begins meant place item → Begins left place other → (other ≡ item) × IsUntorn meant place item left }
{}
