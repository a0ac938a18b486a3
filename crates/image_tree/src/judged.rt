// What is found, as a check answers it.

ghost use Rattle.image_tree.specs.Judged.{IsJudged};

use image_check::{CheckFault, WrongValue};
use sound_image::{Breach, Rule};

// What is found breaks this rule; where nothing is, the rule is met.
pub(crate) fn judge(rule: Rule, found: Option<WrongValue>) -> Result<(), CheckFault>
    ensures { IsJudged rule found result }
{
    match found {
        None => Ok(()),
        Some(wrong) => Err(CheckFault::Unsound {
            breach: Breach::Damaged {
                rule,
                lnum: wrong.lnum,
                offs: wrong.offs,
                wanted: wrong.wanted,
                found: wrong.found,
            },
        }),
    }
}
