// A check that gives no value: `?` puts checks in a row, and the first refusal is the answer.
#![tactic(auto)]

ghost use Rattle.std.specs.Prelude.{◌≡◌};
ghost use Rattle.base_format.specs.Rule.{answer_of};
ghost use Rattle.base_refusal.specs.Refused.{refused_if};

use base_format::{Refusal, Rule};

// Refused by a rule at a place if the test says so.
pub fn refuse(rule: Rule, place: usize, test: bool) -> Result<(), Refusal>
    ensures { answer_of result ≡ refused_if rule place test }
{
    if test {
        return Err(Refusal { rule, place });
    }
    Ok(())
}
