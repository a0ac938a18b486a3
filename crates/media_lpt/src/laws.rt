// Laws of the nodes' grammar.

ghost use Rattle.std.specs.Prelude.{◌≡◌, ℕ, List};
ghost use Rattle.ubifs_base.specs.NodeLaws.{IsBytes};
ghost use Rattle.ubifs_base.specs.Properties.{pnode_len, nnode_len, ltab_len};
ghost use Rattle.ubifs_base.specs.declared.raw_geometry.RawGeometry.{RawGeometry};
ghost use Rattle.media_lpt.specs.BigModel.{big_geometry};
ghost use Rattle.media_lpt.specs.Nodes.{IsPnodeBytes, IsNnodeBytes, IsLtabBytes, IsLsaveBytes, lsave_len};

/// Bytes are at most one node of a kind.
pub fn one_node()
    ensures pnode { (geo : RawGeometry) (bytes : List ℕ) (a b : _) → IsBytes bytes → IsPnodeBytes geo bytes a → IsPnodeBytes geo bytes b → a ≡ b }
    ensures nnode { (geo : RawGeometry) (bytes : List ℕ) (a b : _) → IsBytes bytes → IsNnodeBytes geo bytes a → IsNnodeBytes geo bytes b → a ≡ b }
    ensures ltab { (geo : RawGeometry) (bytes : List ℕ) (a b : _) → IsBytes bytes → IsLtabBytes geo bytes a → IsLtabBytes geo bytes b → a ≡ b }
    ensures lsave { (geo : RawGeometry) (bytes : List ℕ) (a b : _) → IsBytes bytes → IsLsaveBytes geo bytes a → IsLsaveBytes geo bytes b → a ≡ b }
{}

/// A node has one spelling.
pub fn one_spelling()
    ensures pnode { (geo : RawGeometry) (a b : List ℕ) (node : _) → IsBytes a → IsBytes b → IsPnodeBytes geo a node → IsPnodeBytes geo b node → a ≡ b }
    ensures nnode { (geo : RawGeometry) (a b : List ℕ) (node : _) → IsBytes a → IsBytes b → IsNnodeBytes geo a node → IsNnodeBytes geo b node → a ≡ b }
    ensures ltab { (geo : RawGeometry) (a b : List ℕ) (rows : _) → IsBytes a → IsBytes b → IsLtabBytes geo a rows → IsLtabBytes geo b rows → a ≡ b }
    ensures lsave { (geo : RawGeometry) (a b : List ℕ) (lnums : _) → IsBytes a → IsBytes b → IsLsaveBytes geo a lnums → IsLsaveBytes geo b lnums → a ≡ b }
{}

/// The lengths of the big model's nodes on a volume with 4,096 main LEBs of 16,384 bytes.
pub fn big_model_lengths()
    ensures pnode { pnode_len big_geometry ≡ 17 }
    ensures nnode { nnode_len big_geometry ≡ 13 }
    ensures ltab { ltab_len big_geometry ≡ 18 }
    ensures lsave { lsave_len big_geometry ≡ 419 }
{}
