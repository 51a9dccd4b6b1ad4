//! Laws of paths and of obligations. Nothing here computes.
ghost use Rattle.wp_gen.specs.Count.{HaveObligations};
ghost use Rattle.wp_gen.specs.Paths.{CountsAgree, WalksAreCounted};

/// A count of paths and a number that there are at least never disagree, so that what `check_paths` answers is exact; and the walk
/// that makes the obligations has as many paths as are counted.
pub fn paths_are_counted()
    ensures agree { CountsAgree }
    ensures walks { WalksAreCounted }
{}

/// Each body that can be walked has obligations, so that what `room_after` says of them is said of some.
pub fn obligations_exist()
    ensures { HaveObligations }
{}
