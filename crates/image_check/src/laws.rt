// Laws: what a breach that one call tells says of the whole image.

ghost use Rattle.std.specs.Prelude.{◌≡◌, ◌⊎◌, ℕ, List, Option, Some};
ghost use Rattle.sound_image.specs.Breaches.{IsBroken, IsFirstBreach};
ghost use Rattle.sound_image.specs.Image.{Image};
ghost use Rattle.sound_image.specs.Rules.{MeetsBefore};
ghost use Rattle.sound_image.specs.declared.breach.Breach.{Breach as ABreach};
ghost use Rattle.sound_image.specs.declared.rule.Rule.{Rule as ARule};
ghost use Rattle.sound_image.specs.Wrong.{IsOneOf, Wrong};
ghost use Rattle.image_check.specs.Told.{IsBreachOf};
ghost use Rattle.image_check.specs.WrongValues.{IsFirstOf, sooner_of, wrong_at};
ghost use Rattle.image_check.specs.declared.wrong_value.WrongValue.{WrongValue as AValue};

/// A breach of a rule is what is wrong with contents first, if they meet all rules before it: values that differ, or a feature that is
/// needed in a bud or at a leaf.
pub fn a_breach_is_first()
    ensures { (contents : ℕ → List ℕ) (image : Image) (rule : ARule) (breach : ABreach) → MeetsBefore contents image rule
        → IsBreachOf rule (IsBroken contents image rule) breach → IsFirstBreach contents breach }
{}

/// Of what is wrong at the places of two lists, the sooner of both firsts is the first of all; and one place alone is its own first.
pub fn the_sooner_of_both_is_first()
    ensures both { (xs ys : List Wrong) (a b : Option AValue) → IsFirstOf (λ at. IsOneOf at xs) a → IsFirstOf (λ at. IsOneOf at ys) b
        → IsFirstOf (λ at. IsOneOf at xs ⊎ IsOneOf at ys) (sooner_of a b) }
    ensures alone { (x : AValue) → IsFirstOf (λ at. at ≡ wrong_at x) (Some x) }
{}
