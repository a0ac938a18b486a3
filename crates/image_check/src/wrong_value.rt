// A place at which a value is another than is wanted, and which of two comes first.

ghost use Rattle.std.specs.Prelude.{◌≡◌};
ghost use Rattle.sound_image.specs.Wrong.{comes_before};
ghost use Rattle.image_check.specs.WrongValues.{sooner_of, wrong_at};

/// A LEB and an offset in it, in bytes, at which a value is wrong: the value that is wanted there and the one that was found.
#[derive(Clone, Copy, Debug, PartialEq, Eq)]
pub struct WrongValue {
    pub lnum: u32,
    pub offs: u32,
    pub wanted: u64,
    pub found: u64,
}

/// Of two places, if they are there, that which comes first: by LEB, by offset, and then by the lesser values.
pub fn sooner(first: Option<WrongValue>, other: Option<WrongValue>) -> Option<WrongValue>
    ensures { result ≡ sooner_of first other }
{
    let Some(a) = first else {
        return other;
    };
    let Some(b) = other else {
        return first;
    };
    if is_before(b, a) { other } else { first }
}

// Whether one place comes before another.
fn is_before(a: WrongValue, b: WrongValue) -> bool
    ensures { result ≡ comes_before (wrong_at a) (wrong_at b) }
{
    a.lnum < b.lnum
        || a.lnum == b.lnum && a.offs < b.offs
        || a.lnum == b.lnum
            && a.offs == b.offs
            && (a.wanted < b.wanted || a.wanted == b.wanted && a.found < b.found)
}
