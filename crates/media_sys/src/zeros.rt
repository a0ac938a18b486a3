// The ignored bytes at a body's end.

ghost use Rattle.std.specs.Prelude.{◌≡◌, ◌-◌, ◌≤◌, List, [], ◌∷◌, length, drop, replicate};
ghost use Rattle.node_fields.specs.Fields.{spelling, ignored};

/// Writes zeros from a place to the end.
pub(crate) fn put_zeros(body: &mut [u8], at: usize)
    requires { at ≤ length body.old }
    ensures { drop at body.new ≡ spelling (ignored (length body.old - at) ∷ []) [] }
{
    set_all_to_zero(body.split_at_mut(at).1);
}

fn set_all_to_zero(bytes: &mut [u8])
    ensures { bytes.new ≡ replicate (length bytes.old) 0 }
{
    bytes.fill(0);
}
