// What stands is what is read.

ghost use Rattle.std.specs.Prelude.{◌≡◌, ℕ, List};
ghost use Rattle.index_media.specs.PlacedRow.{PlacedRow, branches_of};
ghost use Rattle.index_media.specs.Stored.{AreStored, IsIndexNodeAt};
ghost use Rattle.media_sys.specs.Index.{Index as AnIndexNode};
ghost use Rattle.media_sys.specs.declared.branch.Branch.{Branch as ABranch};
ghost use Rattle.rows_below.specs.NodeSaid.{node_said_at};
ghost use Rattle.rows_below.specs.RowBelow.{row_by};

/// An index node says what is read where its branch leads, and a row that stands in contents is the one that is read there, whatever
/// else the bytes are. A row that is read has the branches that it was read from.
pub fn contents_tell_rows()
    ensures said { (contents : ℕ → List ℕ) (branch : ABranch) (said : AnIndexNode) → IsIndexNodeAt contents branch said → node_said_at contents branch ≡ said }
    ensures row { (contents : ℕ → List ℕ) (levels : ℕ) (row : PlacedRow) → AreStored contents levels row → row_by contents levels (branches_of row) ≡ row }
    ensures branches { (contents : ℕ → List ℕ) (levels : ℕ) (branches : List ABranch) → branches_of (row_by contents levels branches) ≡ branches }
{}
