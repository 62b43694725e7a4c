//! Cuts places in two, so that a stack stands on the second part.
ghost use Rattle.std.specs.Prelude.{◌≡◌, ◌++◌, take, drop};
ghost use types.Logic.{sem};
ghost use denote.Array.{Array};
ghost use denote.Follow.{follows_both};

/// The places before a base, and those from it on, for a stack to stand on; with a base past the end, all places and none. What both are left with is what the whole is left with.
pub fn cut_at<T>(places: &mut [T], base: usize) -> (&mut [T], &mut [T])
    ensures before { result.0.now ≡ take base places.old }
    ensures above { result.1.now ≡ drop base places.old }
    ensures* writes_back { sem 𝓛 (follows_both (Array T.row 0) (Array T.row 0) (Array T.row 0) places.entry.ghost_name result.0.ghost_name result.1.ghost_name ◌++◌) }
{
    let base = base.min(places.len());
    places.split_at_mut(base)
}
