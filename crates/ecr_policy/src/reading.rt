// A policy's text, read whole.
ghost use Rattle.std.specs.Prelude.{◌≡◌, ◌≤◌, [], ℕ, Ok, Err, IfOk, Some, length, option_map};
ghost use Rattle.serde_json.specs.View.{view, items_view};
ghost use Rattle.serde_json.specs.Read.{read};
ghost use Rattle.ecr_model.specs.documents.Documents.{document};
ghost use Rattle.ecr_model.specs.documents.Policies.{policy_or_fault, by_number, clashes_from, has_length, list_fault, policy, policy_of, rules_in};
ghost use Rattle.ecr_policy.specs.declared.refusal.PolicyRefusal.TheVariants.{Bad};

use crate::PolicyRefusal;
use crate::clashes::first_clash;
use crate::json::{characters, has_only, take_list};
use crate::order::by_number;
use crate::rules::{rules_fault, rules_of};
use ecr_model::{Listed, Mem, Policy, PolicyFault, Rule, Text};
use serde_json::Value;
use std::alloc::Global;

/// The policy of the text, or the first cause that it isn't one.
///
/// Rule 0 stands for the text.
pub fn read(alloc: Global, text: &str) -> Result<Policy, PolicyRefusal>
    ensures taken { IfOk result (λ p. policy text.now ≡ Ok p) }
    ensures refused { (rule cause : ℕ) → result ≡ Err (Bad rule cause)
        → policy text.now ≡ Err (record { rule = rule; cause = cause }) }
{
    match read_policy(alloc, text) {
        Ok(Ok(policy)) => Ok(policy),
        Ok(Err(fault)) => Err(PolicyRefusal::Bad {
            rule: fault.rule,
            cause: fault.cause,
        }),
        Err(_) => Err(PolicyRefusal::Mem),
    }
}

/// The policy of the text, or its first fault.
#[tactic(auto, using(crate::proofs::ReadingLemmas::answers), unfolding(ecr_model::specs::documents::Policies::policy))]
fn read_policy(alloc: Global, text: &str) -> Result<Result<Policy, PolicyFault>, Mem>
    ensures { IfOk result (λ r. r ≡ policy text.now) }
{
    if !has_length(text) {
        return Ok(Err(of_text(1)));
    }
    let document = read_document(alloc, text)?;
    read_rules(alloc, text, rules_in(document))
}

/// Whether the text has 100 to 30,720 characters.
fn has_length(text: &str) -> bool
    ensures { result ≡ has_length text.now }
{
    let many = characters(text);
    many >= 100 && many <= 30720
}

/// The document that the text is, where it is one.
fn read_document(alloc: Global, text: &str) -> Result<Option<Value>, Mem>
    ensures { IfOk result (λ o. option_map view o ≡ document text.now) }
{
    read_json(alloc, text)
}

/// The JSON reading of the text, where it has one.
fn read_json(alloc: Global, text: &str) -> Result<Option<Value>, Mem>
    ensures { IfOk result (λ o. option_map view o ≡ read text.now) }
{
    match Value::from_str(alloc, text) {
        Ok(value) => Ok(Some(value)),
        Err(error) if error.is_memory() => Err(Mem),
        Err(_) => Ok(None),
    }
}

/// The list of rules, where the document is an object with that member alone.
fn rules_in(document: Option<Value>) -> Option<Vec<Value>>
    ensures { option_map (λ v. items_view v.items) result ≡ rules_in (option_map view document) }
{
    match document {
        Some(value) => rules_at(value),
        None => None,
    }
}

/// The list of rules, where the value is an object with that member alone.
fn rules_at(mut value: Value) -> Option<Vec<Value>>
    ensures { option_map (λ v. items_view v.items) result ≡ rules_in (Some (view value)) }
{
    if has_only(&["rules"], &value) {
        take_list("rules", &mut value)
    } else {
        None
    }
}

/// The policy of the list of rules, or its first fault.
#[tactic(auto, unfolding(ecr_model::specs::documents::Policies::list_fault))]
fn read_rules(
    alloc: Global,
    text: &str,
    list: Option<Vec<Value>>,
) -> Result<Result<Policy, PolicyFault>, Mem>
    ensures { IfOk result (λ r. r ≡ policy_or_fault (list_fault (option_map (λ v. items_view v.items) list))
        (policy_of text.now (option_map (λ v. items_view v.items) list))) }
{
    match list {
        Some(items) => listed(alloc, text, items),
        None => Ok(Err(of_text(2))),
    }
}

/// The policy of the items, or the first fault from cause 3 on.
#[tactic(auto, using(crate::proofs::JsonLemmas::items, crate::proofs::ReadingLemmas::answers), unfolding(ecr_model::specs::documents::Policies::list_fault))]
fn listed(alloc: Global, text: &str, items: Vec<Value>) -> Result<Result<Policy, PolicyFault>, Mem>
    ensures { IfOk result (λ r. r ≡ policy_or_fault (list_fault (Some (items_view items.items)))
        (policy_of text.now (Some (items_view items.items)))) }
{
    if items.is_empty() || items.len() > 50 {
        return Ok(Err(of_text(3)));
    }
    if let Some(fault) = rules_fault(items.as_slice()) {
        return Ok(Err(fault));
    }
    let rules = rules_of(alloc, items)?;
    together(alloc, text, rules)
}

/// The policy of the rules, or the fault of the first that doesn't go with the others.
fn together(
    alloc: Global,
    text: &str,
    rules: Listed<Rule>,
) -> Result<Result<Policy, PolicyFault>, Mem>
    requires { length rules ≤ 50 }
    ensures { IfOk result (λ r. r ≡ policy_or_fault (clashes_from 1 rules [] rules)
        (record { text = text.now; rules = by_number rules })) }
{
    if let Some(fault) = first_clash(alloc, rules.as_slice())? {
        return Ok(Err(fault));
    }
    let rules = by_number(alloc, rules)?;
    let text = Text::copy_of(alloc, text.as_bytes())?;
    Ok(Ok(Policy { text, rules }))
}

/// A cause of the text's.
fn of_text(cause: u8) -> PolicyFault
    ensures { result ≡ record { rule = 0; cause = cause } }
{
    PolicyFault { rule: 0, cause }
}
