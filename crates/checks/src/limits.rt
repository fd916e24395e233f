//! Tests on a run's limits. Rests on the definitions of `rules`, Refusals.
//! The limits are words, judged as they are handed over.
ghost use Rattle.std.specs.Prelude.{◌≡◌, ◌∷◌, []};
ghost use Rattle.rules.specs.Refusals.{test, answered, limit_refusals, mode_above, allowance_above, budget_above};

use rules::{Limits, MOST_REFINEMENTS, Refusal, S};

/// The mode is refused by 3, or let pass. Apart from 14 and 15: by its number 3 comes before tables and lists are judged.
#[tactic(auto, unfolding(rules::specs::Refusals::answered, rules::specs::Refusals::mode_above))]
pub fn check_mode(m: Limits) -> Result<(), Refusal>
    ensures { result ≡ answered (test Refusal.ModeAbove (mode_above m) ∷ []) tt }
{
    Refusal::ModeAbove.test(1 < m.mode)
}

/// 14: the allowance is above S.
#[tactic(auto, unfolding(rules::specs::Refusals::allowance_above))]
fn allowance_above(m: Limits) -> bool
    ensures { result ≡ allowance_above m }
{
    S < m.allowance
}

/// 15: the budget is above 255.
#[tactic(auto, unfolding(rules::specs::Refusals::budget_above))]
fn budget_above(m: Limits) -> bool
    ensures { result ≡ budget_above m }
{
    MOST_REFINEMENTS < m.budget
}

/// The limits are refused by 14 or 15, or let pass.
#[tactic(auto, unfolding(rules::specs::Refusals::answered, rules::specs::Refusals::limit_refusals))]
pub fn check_limits(m: Limits) -> Result<(), Refusal>
    ensures { result ≡ answered (limit_refusals m) tt }
{
    Refusal::AllowanceAbove.test(allowance_above(m))?;
    Refusal::BudgetAbove.test(budget_above(m))
}
