// The rules of a policy beside each other: causes 14 to 17.
ghost use Rattle.std.specs.Prelude.{◌≡◌, ◌≤◌, ◌==◌, IfOk, nat_lt, length, []};
ghost use Rattle.std.specs.List.{list_any};
ghost use Rattle.ecr_model.specs.documents.Policies.{is_any, is_untagged, have_same_texts, clash, clashes_from};

use crate::compared::Compared;
use ecr_model::{Choose, Mem, PolicyFault, Rule};
use std::alloc::Global;

/// The fault of the first rule that doesn't go with the others.
pub(crate) fn first_clash(alloc: Global, rules: &[Rule]) -> Result<Option<PolicyFault>, Mem>
    requires { length rules.now ≤ 50 }
    ensures { IfOk result (λ r. r ≡ clashes_from 1 rules.now [] rules.now) }
{
    let rules = with_prefixes(alloc, rules)?;
    Ok(first_among(rules.as_slice()))
}

/// Each rule beside its prefixes in order.
fn with_prefixes(alloc: Global, rules: &[Rule]) -> Result<Vec<Compared<'_>>, Mem>
    ensures { IfOk result (λ v. v.items ≡ rules.now) }
{
    let mut all = Vec::new(alloc);
    for rule in rules {
        all.push(Compared::new(alloc, rule)?)?;
    }
    Ok(all)
}

/// The fault of the first rule that doesn't go with the others.
fn first_among(rules: &[Compared<'_>]) -> Option<PolicyFault>
    requires { length rules.now ≤ 50 }
    ensures { result ≡ clashes_from 1 rules.now [] rules.now }
{
    for at in 0..rules.len() {
        if let Some(cause) = clash(rules, &rules[..at], &rules[at]) {
            return Some(PolicyFault {
                rule: at as u32 + 1,
                cause,
            });
        }
    }
    None
}

/// The first cause that holds of the rule beside the earlier ones and all.
#[tactic(auto, unfolding(ecr_model::specs::documents::Policies::clash))]
fn clash(all: &[Compared<'_>], earlier: &[Compared<'_>], compared: &Compared<'_>) -> Option<u8>
    ensures { result ≡ clash all.now earlier.now compared.now }
{
    let rule = compared.rule();
    if has_number(earlier, rule.priority) {
        return Some(14);
    }
    if is_any(&rule.choose) && has_greater(all, rule.priority) {
        return Some(15);
    }
    if is_untagged(&rule.choose) && has_untagged(earlier) {
        return Some(16);
    }
    if has_same_texts(earlier, compared) {
        return Some(17);
    }
    None
}

/// Whether a rule has the number.
fn has_number(rules: &[Compared<'_>], number: u32) -> bool
    ensures { result ≡ list_any (λ e. e.priority == number) rules.now }
{
    rules.iter().any(|rule| rule.rule().priority == number)
}

/// Whether a rule has a greater number.
fn has_greater(rules: &[Compared<'_>], number: u32) -> bool
    ensures { result ≡ list_any (λ o. nat_lt number o.priority) rules.now }
{
    rules.iter().any(|rule| number < rule.rule().priority)
}

/// Whether a rule chooses the images without tags.
fn has_untagged(rules: &[Compared<'_>]) -> bool
    ensures { result ≡ list_any (λ e. is_untagged e.choose) rules.now }
{
    rules.iter().any(|rule| is_untagged(&rule.rule().choose))
}

/// Whether a rule has a list with the same set of texts.
fn has_same_texts(rules: &[Compared<'_>], rule: &Compared<'_>) -> bool
    ensures { result ≡ list_any (λ e. have_same_texts rule.now.choose e.choose) rules.now }
{
    rules.iter().any(|other| rule.has_same_texts(other))
}

/// Whether it is every image.
fn is_any(choose: &Choose) -> bool
    ensures { result ≡ is_any choose.now }
{
    matches!(choose, Choose::Any)
}

/// Whether it is the images without tags.
fn is_untagged(choose: &Choose) -> bool
    ensures { result ≡ is_untagged choose.now }
{
    matches!(choose, Choose::Untagged)
}
