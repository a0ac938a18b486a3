// Files whose credits are counted.

ghost use Rattle.std.specs.Prelude.{◌≡◌, ◌+◌, ◌≤◌, length};

use credit_pool::Master;
use fs_model::Backing;
use vfs_ops::Fs;

/// Files over a backing, and the master of the pool of so many callers. Each credit that is covered is that of a dirty page, or
/// was issued; the master holds none.
#[derive(Drop)]
pub struct CreditedFs<B: Backing> {
    pub(crate) fs: Fs<B>,
    pub(crate) master: Master,
    pub(crate) issued: u64,
    pub(crate) callers: u16,
    ghost held: { master.held ≡ 0 },
    ghost counted: { master.issued ≡ issued },
    ghost few: { length master.out ≤ callers },
    ghost covered: { (B.state fs.backing).space.credits ≡ length fs.kept.pages.dirty + issued },
}
