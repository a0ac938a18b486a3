// Of leaves that are wrong, what is told first.

ghost use Rattle.std.specs.Prelude.{◌≡◌, ◌∷◌, ◌++◌, ◌⊎◌, List, None, [], IfNone, IfOk, IfSome};
ghost use Rattle.ubi_volume.specs.Volume.{Keeps, SameShape};
ghost use Rattle.ubi_volume.specs.Faults.{HasAreaCause, StaysSureArea};
ghost use Rattle.index_tree.specs.declared.leaf.Leaf.{Leaf as ALeaf};
ghost use Rattle.sound_image.specs.Wrong.{IsFirstWrong, IsOneOf};
ghost use Rattle.sound_image.specs.declared.rule.Rule.TheVariants as rules;
ghost use Rattle.image_check.specs.Told.{IsBreachOf};
ghost use Rattle.image_check.specs.WrongValues.{IsFirstOf};
ghost use Rattle.leaf_check.specs.Overlaps.{StandsBefore};
ghost use Rattle.leaf_check.specs.Standings.{IsFirstPlaced, IsStandingWrong};

use crate::standing::{Standing, standing_at, value_at};
use crate::touching::stands_before;
use image_check::{WrongValue, sooner};
use index_tree::Leaf;
use sound_image::{Breach, Rule};
use std::alloc::Global;
use ubi_volume::{AreaFault, Volume};

/// What is told first of these leaves, as a breach of the rule on leaves; none where there is no leaf.
pub(crate) fn first_breach<V: Volume>(
    alloc: Global,
    volume: &mut V,
    wrong: &[Leaf],
) -> Result<Option<Breach>, AreaFault>
    ensures none { IfOk result (λ first. IfNone first (wrong.now ≡ [])) }
    ensures some { IfOk result (λ first. IfSome first (IsBreachOf rules.Leaves (IsFirstPlaced (V.state volume.old).holds wrong.now))) }
    ensures keeps { Keeps (V.state volume.old) (V.state volume.new) }
    ensures shape { SameShape (V.state volume.old) (V.state volume.new) }
    ensures cause { HasAreaCause (V.state volume.old).faults (V.state volume.new).faults result }
    ensures sure { StaysSureArea (V.state volume.old) (V.state volume.new) result }
{
    let Some(least) = least_place(wrong) else {
        return Ok(None);
    };
    let standing = standing_at(alloc, volume, &least)?;
    Ok(breach_at(&standing, &least, wrong))
}

// One of these leaves before whose place none of the others stands.
fn least_place(leaves: &[Leaf]) -> Option<Leaf>
    ensures none { IfNone result (leaves.now ≡ []) }
    ensures one { IfSome result (λ least. IsOneOf least leaves.now) }
    ensures least { IfSome result (λ least. (other : ALeaf) → IsOneOf other leaves.now → StandsBefore other least → ⊥) }
{
    let (first, others) = leaves.split_first()?;
    let mut least = *first;
    let mut left = others;
    'looking: while let Some((leaf, rest)) = left.split_first() {
        least = lesser(least, leaf);
        left = rest;
    }
    Some(least)
}

// Of two leaves that which stands before the other.
fn lesser(least: Leaf, leaf: &Leaf) -> Leaf
    ensures { (StandsBefore leaf.now least × (result ≡ leaf.now)) ⊎ ((StandsBefore leaf.now least → ⊥) × (result ≡ least)) }
{
    if stands_before(leaf, &least) {
        *leaf
    } else {
        least
    }
}

// What is told first of those leaves that have their place here, of which this is one.
fn breach_at(standing: &Standing, here: &Leaf, wrong: &[Leaf]) -> Option<Breach>
    requires { IsOneOf here.now wrong.now }
    ensures some { IfSome result (IsBreachOf rules.Leaves (IsFirstWrong (IsStandingWrong standing.now here.now wrong.now))) }
    ensures none { IfNone result ⊥ }
{
    if let Some(what) = standing.feature {
        return Some(Breach::Feature {
            what,
            lnum: here.lnum,
            offs: here.offs,
        });
    }
    let value = first_value(standing, here, wrong)?;
    Some(Breach::Damaged {
        rule: Rule::Leaves,
        lnum: value.lnum,
        offs: value.offs,
        wanted: value.wanted,
        found: value.found,
    })
}

// The same, where no feature is needed.
fn first_value(standing: &Standing, here: &Leaf, wrong: &[Leaf]) -> Option<WrongValue>
    requires { standing.now.feature ≡ None }
    ensures { IsFirstOf (IsStandingWrong standing.now here.now wrong.now) result }
{
    let mut first = None;
    let mut left = wrong;
    'looking: while let Some((leaf, rest)) = left.split_first() {
        first = with_leaf(standing, here, leaf, first);
        left = rest;
    }
    first
}

// And of one leaf more.
fn with_leaf(
    standing: &Standing,
    here: &Leaf,
    leaf: &Leaf,
    first: Option<WrongValue>,
) -> Option<WrongValue>
    requires { standing.now.feature ≡ None }
    ensures { (done : List ALeaf) → IsFirstOf (IsStandingWrong standing.now here.now done) first → IsFirstOf (IsStandingWrong standing.now here.now (done ++ (leaf.now ∷ []))) result }
{
    if leaf.lnum != here.lnum {
        return first;
    }
    if leaf.offs != here.offs {
        return first;
    }
    sooner(first, Some(value_at(standing, leaf)))
}
