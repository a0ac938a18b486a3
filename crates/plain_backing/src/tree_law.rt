// A law of what is read of a tree.

ghost use Rattle.std.specs.Prelude.{◌≡◌, ℕ, false, IfSome};
ghost use Rattle.std.specs.declared.option.Option.TheVariants.{None};
ghost use Rattle.fs_model.specs.Files.{Blocks, last_block_of};
ghost use Rattle.plain_backing.specs.TreeReads.{has_block, IsGreatestBlock};

/// The last block of an inode is there, and no block of it has a greater number; none is last where none is there.
pub fn last_blocks_are_greatest()
    ensures last { (blocks : Blocks) (ino : ℕ) → IfSome (last_block_of blocks ino) (IsGreatestBlock blocks ino) }
    ensures none { (blocks : Blocks) (ino block : ℕ) → last_block_of blocks ino ≡ None → has_block blocks ino block ≡ false }
{}
