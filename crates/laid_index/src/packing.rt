// How many LEBs an index takes.

ghost use Rattle.std.specs.Prelude.{◌≡◌, ◌+◌, ◌*◌, ◌^◌, ◌<◌, ◌≤◌, ◌∷◌, ℕ, List, [], ◌++◌, length};
ghost use Rattle.ubifs_base.specs.RawOf.{raw_of};
ghost use Rattle.laid_index.specs.Counted.{lebs_after};
ghost use Rattle.laid_index.specs.Packing.{index_used, lens_above, level_lens};

use ubifs_base::Geometry;

// How many LEBs are taken, and how many bytes of the next one.
#[derive(Drop)]
pub(crate) struct LebCount {
    pub(crate) lebs: u64,
    pub(crate) taken: u32,
}

/// How many LEBs the index of so many leaves takes (`lay_index`). It takes time by the number of nodes, and no memory.
pub fn index_lebs(geometry: &Geometry, leaves: usize) -> u64
    requires { 0 < leaves }
    ensures { result ≡ length (index_used (raw_of geometry.now) leaves) }
{
    let mut count = LebCount { lebs: 0, taken: 0 };
    count.take_levels(geometry, leaves);
    count.lebs + 1
}

impl LebCount {
    // Takes the nodes over so many siblings, and all above them.
    fn take_levels(&mut self, geometry: &Geometry, n: usize)
        requires some { 0 < n }
        requires room { lebs_after (raw_of geometry.now) self.old (lens_above n geometry.now.fanout n) < 2 ^ 64 }
        requires taken { self.old.taken ≤ 2 ^ 22 }
        ensures after { (lens : List ℕ) → lebs_after (raw_of geometry.now) self.new lens ≡ lebs_after (raw_of geometry.now) self.old (lens_above n geometry.now.fanout n ++ lens) }
    {
        self.take_level(geometry, n);
        let fanout = geometry.fanout as usize;
        if n <= fanout {
            return;
        }
        self.take_levels(geometry, n.div_ceil(fanout));
    }

    // Takes the nodes over so many siblings.
    fn take_level(&mut self, geometry: &Geometry, n: usize)
        requires room { lebs_after (raw_of geometry.now) self.old (level_lens geometry.now.fanout n) < 2 ^ 64 }
        requires taken { self.old.taken ≤ 2 ^ 22 }
        ensures after { (lens : List ℕ) → lebs_after (raw_of geometry.now) self.new lens ≡ lebs_after (raw_of geometry.now) self.old (level_lens geometry.now.fanout n ++ lens) }
        ensures taken { self.new.taken ≤ 2 ^ 22 }
    {
        let fanout = geometry.fanout as usize;
        let mut left = n;
        'taking: while left > 0 {
            let own = left.min(fanout);
            self.take(geometry, 28 + 20 * own as u32);
            left -= own;
        }
    }

    // Takes a node of so many bytes.
    fn take(&mut self, geometry: &Geometry, len: u32)
        requires most { len ≤ 5148 }
        requires room { lebs_after (raw_of geometry.now) self.old (len ∷ []) < 2 ^ 64 }
        requires taken { self.old.taken ≤ 2 ^ 22 }
        ensures after { (lens : List ℕ) → lebs_after (raw_of geometry.now) self.new lens ≡ lebs_after (raw_of geometry.now) self.old (len ∷ lens) }
        ensures taken { self.new.taken ≤ 2 ^ 22 }
    {
        let end = (len + 7) / 8 * 8;
        if self.taken + len <= geometry.leb_size {
            self.taken += end;
        } else {
            self.lebs += 1;
            self.taken = end;
        }
    }
}
