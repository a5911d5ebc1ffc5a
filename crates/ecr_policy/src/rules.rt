// The rules of a policy, each by itself: causes 4 to 13.
ghost use Rattle.std.specs.Prelude.{◌≡◌, ◌≤◌, IfOk, length, option_map, unwrap_or};
ghost use Rattle.serde_json.specs.Data.{null};
ghost use Rattle.serde_json.specs.View.{view, items_view};
ghost use Rattle.ecr_model.specs.documents.Policies.{has_only, is_action, is_described, priority_of, rule_fault, rule_members, rule_of, rules_fault, rules_of, selection_fault};

use crate::json::{has, has_only, is_text_at, take, text_at, whole_at};
use crate::selection::{choose_of, count_of, selection_fault};
use ecr_model::{Listed, Mem, PolicyFault, Rule};
use serde_json::Value;
use std::alloc::Global;

/// The fault of the first rule that has one by itself.
pub(crate) fn rules_fault(items: &[Value]) -> Option<PolicyFault>
    requires { length items.now ≤ 50 }
    ensures { result ≡ rules_fault 1 (items_view items.now) }
{
    for at in 0..items.len() {
        if let Some(cause) = rule_fault(&items[at]) {
            return Some(PolicyFault {
                rule: at as u32 + 1,
                cause,
            });
        }
    }
    None
}

/// The rules of the items, where none has a fault.
pub(crate) fn rules_of(alloc: Global, items: Vec<Value>) -> Result<Listed<Rule>, Mem>
    ensures { IfOk result (λ rules. rules ≡ rules_of (items_view items.items)) }
{
    let mut rules = Vec::with_capacity(alloc, items.len())?;
    for item in items {
        rules.push(rule_of(alloc, item)?)?;
    }
    Ok(Listed::from_vec(rules))
}

/// The first cause that holds of the rule by itself.
#[tactic(auto, unfolding(ecr_model::specs::documents::Policies::rule_fault))]
fn rule_fault(rule: &Value) -> Option<u8>
    ensures { result ≡ rule_fault (view rule.now) }
{
    if !is_rule(rule) {
        return Some(4);
    }
    if priority_of(rule).is_none() {
        return Some(5);
    }
    if !is_described(rule) {
        return Some(6);
    }
    if let Some(cause) = fault_of_selection(rule.get("selection")) {
        return Some(cause);
    }
    if !is_action(rule.get("action")) {
        return Some(13);
    }
    None
}

/// The first cause that holds of a rule's selection; one that isn't there is null.
#[tactic(auto, unfolding(ecr_model::specs::documents::Policies::selection_fault))]
fn fault_of_selection(selection: Option<&Value>) -> Option<u8>
    ensures { result ≡ selection_fault (unwrap_or (option_map (λ s. view s.now) selection.entry) null) }
{
    match selection {
        Some(selection) => selection_fault(selection),
        None => Some(7),
    }
}

/// The rule that the value is, where it has no fault.
fn rule_of(alloc: Global, mut value: Value) -> Result<Rule, Mem>
    ensures { IfOk result (λ rule. rule ≡ rule_of (view value)) }
{
    let priority = priority_of(&value).unwrap_or(0);
    let mut selection = take("selection", &mut value);
    let count = count_of(&selection);
    let choose = choose_of(alloc, &mut selection)?;
    Ok(Rule {
        priority,
        choose,
        count,
    })
}

/// Whether the value is an object with the members of a rule alone.
fn is_rule(rule: &Value) -> bool
    ensures { result ≡ has_only rule_members (view rule.now) }
{
    has_only(
        &["rulePriority", "description", "selection", "action"],
        rule,
    )
}

/// The rule's number.
fn priority_of(rule: &Value) -> Option<u32>
    ensures { result ≡ priority_of (view rule.now) }
{
    whole_at("rulePriority", rule)
}

/// Whether a description is a text.
fn is_described(rule: &Value) -> bool
    ensures { result ≡ is_described (view rule.now) }
{
    !has("description", rule) || text_at("description", rule).is_some()
}

/// Whether the action is an object with the one member `type`, which is `expire`.
fn is_action(action: Option<&Value>) -> bool
    ensures { result ≡ is_action (option_map (λ a. view a.now) action.entry) }
{
    match action {
        Some(action) => has_only(&["type"], action) && is_text_at("type", "expire", action),
        None => false,
    }
}
