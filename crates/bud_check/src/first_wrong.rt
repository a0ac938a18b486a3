// Which of two places comes first.

ghost use Rattle.std.specs.Prelude.{◌≡◌};
ghost use Rattle.sound_image.specs.Wrong.{comes_before, feature_number as number_of, is_told_before};
ghost use Rattle.bud_check.specs.Findings.{first_of_two, misfit_told, wrong_told};

use crate::bud_wrong::{BudMisfit, BudWrong};
use media_sys::Feature;

// Of two, if they are there, that which comes first.
pub(crate) fn first_wrong(first: Option<BudWrong>, other: Option<BudWrong>) -> Option<BudWrong>
    ensures { result ≡ first_of_two first other }
{
    let Some(a) = first else {
        return other;
    };
    let Some(b) = other else {
        return first;
    };
    if is_before(b, a) { other } else { first }
}

// Whether one place comes before another: by LEB, then by offset, and at one place by what is wrong.
fn is_before(a: BudWrong, b: BudWrong) -> bool
    ensures { result ≡ comes_before (wrong_told a) (wrong_told b) }
{
    if a.lnum != b.lnum {
        return a.lnum < b.lnum;
    }
    if a.offs != b.offs {
        return a.offs < b.offs;
    }
    is_sooner(a.misfit, b.misfit)
}

// Whether one is told before another at one place: features first.
fn is_sooner(a: BudMisfit, b: BudMisfit) -> bool
    ensures { result ≡ is_told_before (misfit_told a) (misfit_told b) }
{
    match a {
        BudMisfit::Needs { what } => match b {
            BudMisfit::Needs { what: other } => feature_number(what) < feature_number(other),
            BudMisfit::Unwanted { .. } => true,
        },
        BudMisfit::Unwanted { kind } => match b {
            BudMisfit::Needs { .. } => false,
            BudMisfit::Unwanted { kind: other } => kind < other,
        },
    }
}

// The place of a feature in the order in which features are tested.
fn feature_number(what: Feature) -> u8
    ensures { result ≡ number_of what }
{
    match what {
        Feature::KeyHash => 0,
        Feature::KeyFmt => 1,
        Feature::Version => 2,
        Feature::Heads => 3,
        Feature::DoubleHash => 4,
        Feature::Encryption => 5,
        Feature::Authentication => 6,
        Feature::Flags => 7,
        Feature::BigModel => 8,
        Feature::Compressed => 9,
        Feature::Attributes => 10,
    }
}
