// The laws of turns and of journals. The functions do nothing: their contracts are the laws.
ghost use Rattle.std.specs.Prelude.{Box};
ghost use Rattle.std.proofs.Common.{Global};
ghost use Rattle.ecr_turn.specs.Laws.{TheRuleIsTheSevenPoints, WhatStoodStays, OthersAddNoneOfMine, ATurnAddsItsOwn, SplitsRise};

use crate::journal::Journal;

/// Of each table that keeps the rule of a turnstile the seven points hold.
pub fn the_rule_is_the_seven_points<S: Journal>()
    ensures points { TheRuleIsTheSevenPoints (λ (b : Box S Global). S.lines b.value)
        (λ (b : Box S Global). S.frame b.value) }
{}

/// What stood below a ticket that was passed on stands there in every later journal.
pub fn what_stood_stays()
    ensures stays { WhatStoodStays }
{}

/// What others add leaves a caller's own lines as they were.
pub fn others_add_none_of_mine()
    ensures unchanged { OthersAddNoneOfMine }
{}

/// A turn adds nothing to its caller's own lines, or its one entry at their end.
pub fn a_turn_adds_its_own()
    ensures own { ATurnAddsItsOwn }
{}

/// Passes that are split one after another from one pass have rising numbers, so that no two are the same.
pub fn splits_rise()
    ensures rise { SplitsRise }
{}
