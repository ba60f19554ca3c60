// Laws of what is said of values, the contract of a function that does nothing.
ghost use Rattle.smv_look_lint.specs.Truth.{SetsWithStraysRuleNothingOut, StraysRuleNothingOut};

/// A value that its type does not have, and a set with one, allow all values of the type.
pub fn strays_rule_nothing_out()
    ensures values { StraysRuleNothingOut }
    ensures sets { SetsWithStraysRuleNothingOut }
{}
