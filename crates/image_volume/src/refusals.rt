// Which calls were refused.

ghost use Rattle.std.specs.Prelude.{◌≡◌, Err};
ghost use Rattle.ubi_volume.specs.Faults.{HasCause};
ghost use Rattle.ubi_volume.specs.declared.fault.VolFault.TheVariants.{Failed};

use ubi_volume::VolFault;

// The LEB of the first call that was refused, and how many were.
#[derive(Clone, Copy)]
pub(crate) struct Refusals {
    pub(crate) first: Option<u32>,
    pub(crate) count: u64,
}

impl Refusals {
    ghost use Rattle.image_volume.specs.ImageVolume.{after_refusal};

    // Refuses a call on a LEB.
    pub(crate) fn refuse(&mut self, lnum: u32) -> Result<(), VolFault>
        ensures refused { self.new ≡ after_refusal self.old lnum }
        ensures told { result ≡ Err (Failed self.new.count) }
        ensures cause { HasCause self.old.count self.new.count result }
    {
        let count = self.count.saturating_add(1);
        self.first = Some(self.first.unwrap_or(lnum));
        self.count = count;
        Err(VolFault::Failed { count })
    }
}
