// Which outcomes of a cut the premise on checksums takes in.

ghost use Rattle.std.specs.Prelude.{List, ℕ};
ghost use Rattle.ubi_volume.specs.Volume.{put};
ghost use Rattle.media_sys.specs.declared.master.Master.{Master as AMaster};
ghost use Rattle.small_areas.specs.Copies.{IsRoom, IsNodeOf, copy_of, IsPlace, IsUnmended};

/// The premise on checksums holds of a LEB to which nothing was written yet, and of one to which the whole copy was.
pub fn meant_outcomes()
    ensures before { (leb node : List ℕ) (room place : ℕ) → IsPlace leb room place → IsUnmended node place leb }
    ensures after { (leb node : List ℕ) (room place sqnum : ℕ) (new : AMaster) → IsRoom room → IsNodeOf node sqnum new → IsPlace leb room place → IsUnmended node place (put place (copy_of room node) leb) }
{}
