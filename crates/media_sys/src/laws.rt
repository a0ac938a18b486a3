// What bytes can stand for, whichever of the seven kinds they are.

ghost use Rattle.std.specs.Prelude.{◌≡◌, ◌++◌, List, ℕ, length};
ghost use Rattle.ubifs_base.specs.NodeLaws.{IsBytes};
ghost use Rattle.media_sys.specs.SystemNode.{SystemNode, IsSystemNode};

/// Bytes are at most one node, with one sequence number and one group type.
pub fn one_node()
    ensures { (bytes : List ℕ) (s1 g1 s2 g2 : ℕ) (n1 n2 : SystemNode) → IsBytes bytes → IsSystemNode bytes s1 g1 n1 → IsSystemNode bytes s2 g2 n2 → (s1 ≡ s2) × (g1 ≡ g2) × (n1 ≡ n2) }
{}

/// No node's bytes begin those of another.
pub fn whole_node()
    ensures { (a x b : List ℕ) (s1 g1 s2 g2 : ℕ) (n1 n2 : SystemNode) → IsBytes a → IsBytes b → IsSystemNode a s1 g1 n1 → IsSystemNode b s2 g2 n2 → a ++ x ≡ b → length a ≡ length b }
{}
