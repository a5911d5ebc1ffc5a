// The reading of lifecycle policies. The functions do nothing: their contracts are the laws.
ghost use Rattle.ecr_examples.specs.Policies.{PoliciesAreRead, RulesAreCompared, RulesAreRead, SelectionsAreRead, ValuesAreRead};

/// The texts, numbers and lists in policies.
pub fn values_are_read()
    ensures read { ValuesAreRead }
{}

/// The selections of rules.
pub fn selections_are_read()
    ensures read { SelectionsAreRead }
{}

/// Rules by themselves.
pub fn rules_are_read()
    ensures read { RulesAreRead }
{}

/// Rules beside each other.
pub fn rules_are_compared()
    ensures compared { RulesAreCompared }
{}

/// Whole policies.
pub fn policies_are_read()
    ensures read { PoliciesAreRead }
{}
