// Lifecycle policies (Amazon ECR User Guide, lifecycle policies).
ghost use Rattle.std.proofs.Common.{arith};

use crate::{Listed, Text, Twin};

/// A lifecycle policy.
#[derive(Clone, Drop)]
pub struct Policy {
    /// The text as it was put.
    pub text: Text,
    /// In order of their numbers.
    pub rules: Listed<Rule>,
}

/// Why a text isn't a lifecycle policy: the first cause that it has.
#[derive(Clone, Copy, Debug, PartialEq, Eq)]
pub struct PolicyFault {
    /// The place of the rule in the text's list, counted from 1, or 0 for the text.
    pub rule: u32,
    /// From 1 to 17.
    pub cause: u8,
}

/// A rule of a lifecycle policy: the images that it chooses, and how many of them it keeps.
#[derive(Clone, Drop)]
pub struct Rule {
    /// `rulePriority`, from 1 to 2,147,483,647. A lower number goes first.
    pub priority: u32,
    pub choose: Choose,
    pub count: Count,
}

/// The images that a rule chooses.
#[derive(Clone, Drop)]
pub enum Choose {
    /// `untagged`: those without tags.
    Untagged,
    /// `any`: every image.
    Any,
    /// `tagged` with `tagPrefixList`: those with a tag for each prefix of the list.
    Prefixes(Listed<Text>),
}

/// Which of the chosen images a rule marks.
#[derive(Clone, Copy, Debug, PartialEq, Eq)]
pub enum Count {
    /// `imageCountMoreThan`: those past so many younger ones.
    MoreThan(u32),
    /// `sinceImagePushed`: those pushed more than so many days ago.
    OlderDays(u32),
}

impl Twin for Policy {
    ghost same = { λ x y h. Prim.grind arith };
}

impl Twin for Rule {
    ghost same = { λ x y h. Prim.grind arith };
}

impl Twin for Choose {
    ghost same = { λ x y h. Prim.grind arith };
}
