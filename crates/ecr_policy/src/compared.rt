// A rule and its prefixes in order.
ghost use Rattle.std.specs.Prelude.{◌≡◌, IfOk, map};
ghost use Rattle.ecr_model.specs.documents.Policies.{have_same_texts};
ghost use Rattle.ecr_model.specs.declared.registry.lifecycle.Rule.{Rule};
ghost use Rattle.ecr_policy.specs.Sets.{prefixes_of, InOrder};

use crate::marked::Marked;
use ecr_model::{Choose, Mem, Rule, Text};
use std::alloc::Global;
use std::marker::Model;

/// A rule beside its prefixes in order, each once, so that rules with the same set of them have equal lists. Contracts
/// see the rule.
#[derive(Drop)]
pub(crate) struct Compared<'a> {
    rule: &'a Rule,
    prefixes: Marked<'a>,
}

impl<'a> Model for Compared<'a> {
    ghost Value = { Rule };

    ghost view = { λ c. c.rule.now };

    ghost invariant = { λ c. InOrder c.prefixes (prefixes_of c.rule.now.choose) };
}

impl<'a> Compared<'a> {
    /// The rule, of which nothing is copied.
    pub(crate) fn new(alloc: Global, rule: &'a Rule) -> Result<Compared<'a>, Mem>
        ensures { IfOk result (λ c. c ≡ rule.now) }
    {
        let prefixes = in_order(alloc, prefixes_of(&rule.choose))?;
        Ok(Compared { rule, prefixes })
    }

    /// The rule.
    pub(crate) fn rule(&self) -> &Rule
        ensures { result.now ≡ self.now }
    {
        self.rule
    }

    /// Whether both choose by prefixes, and by the same set of them.
    pub(crate) fn has_same_texts(&self, other: &Compared<'a>) -> bool
        ensures { result ≡ have_same_texts self.now.choose other.now.choose }
    {
        match (&self.rule.choose, &other.rule.choose) {
            (Choose::Prefixes(_), Choose::Prefixes(_)) => self.prefixes.is_same(&other.prefixes),
            _ => false,
        }
    }
}

/// The prefixes that the choice lists.
fn prefixes_of(choose: &Choose) -> &[Text]
    ensures { result.now ≡ prefixes_of choose.now }
{
    match choose {
        Choose::Prefixes(prefixes) => prefixes.as_slice(),
        _ => &[],
    }
}

/// The texts in order, each once.
fn in_order<'a>(alloc: Global, texts: &'a [Text]) -> Result<Marked<'a>, Mem>
    ensures { IfOk result (λ sorted. InOrder sorted texts.now) }
{
    let mut sorted = all_of(alloc, texts)?;
    sorted.sort_unstable();
    sorted.dedup();
    Ok(Marked::new(sorted))
}

/// The bytes of each text.
fn all_of<'a>(alloc: Global, texts: &'a [Text]) -> Result<Vec<&'a [u8]>, Mem>
    ensures { IfOk result (λ v. map (λ t. t.now) v.items ≡ texts.now) }
{
    let mut all = Vec::with_capacity(alloc, texts.len())?;
    for text in texts {
        all.push(text.as_bytes())?;
    }
    Ok(all)
}
