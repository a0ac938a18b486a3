// The hash of names.

ghost use Rattle.std.specs.Prelude.{◌≡◌};
ghost use Rattle.ubifs_base.specs.R5.{r5_of, r5_step};

/// The R5 hash of a name, below 2^29 and at least 3 (`key_r5_hash` of the Linux sources).
#[tactic(auto, unfolding(crate::specs::R5::r5_of))]
pub fn r5(name: &[u8]) -> u32
    ensures { result ≡ r5_of name.now }
{
    let mut hash = 0;
    for byte in name {
        hash = with_byte(hash, *byte);
    }
    let masked = hash % (1 << 29);
    if masked <= 2 { masked + 3 } else { masked }
}

fn with_byte(hash: u32, byte: u8) -> u32
    ensures { result ≡ r5_step hash byte }
{
    let wide = byte as u64;
    let (signed, sixteenth) = if byte < 128 {
        (wide, wide / 16)
    } else {
        (wide + 0xffff_ff00, wide / 16 + 0xffff_fff0)
    };
    let sum = (hash as u64 + 16 * signed + sixteenth) * 11;
    (sum % (1 << 32)) as u32
}
