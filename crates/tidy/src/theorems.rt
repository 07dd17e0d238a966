//! What the rules say, and that a tidy circuit leaves them nothing to do.
ghost use Rattle.tidy.specs.Promise.{NoRule, NoRuleBefore, NoWay};
ghost use Rattle.tidy.specs.Rules.{Backs, Changes, IdleDrops, Reduces, TwinsMerge};

/// Every rule is sound.
pub fn rules_stand() -> u8
    ensures twins { TwinsMerge }
    ensures idle { IdleDrops }
    ensures reduced { Reduces }
    ensures changes { Changes }
    ensures backs { Backs }
{
    0
}

/// In a tidy circuit no rule applies.
pub fn nothing_left_stands() -> u8
    ensures second { NoRule }
    ensures first { NoRuleBefore }
    ensures way { NoWay }
{
    0
}
