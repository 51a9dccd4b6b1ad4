//! Laws of walks. Nothing here computes.
ghost use Rattle.prophecy_logic.specs.Laws.{PrefixesHaveGoals, GoalsAreSeenBefore, WalksAreOne, WalksExist};

/// The goals of a body's walk, closed at its entry, are exactly those of the body's prefixes, each closed from its end backwards.
pub fn prefixes_have_goals()
    ensures { PrefixesHaveGoals }
{}

/// The goals of a walk, each closed by the commands before it, are those that are met on it, as they are seen from where it begins.
pub fn goals_are_seen_before()
    ensures { GoalsAreSeenBefore }
{}

/// Two walks of one body are the same tree.
pub fn walks_are_one()
    ensures { WalksAreOne }
{}

/// Each body that can be walked has a walk.
pub fn walks_exist()
    ensures { WalksExist }
{}
