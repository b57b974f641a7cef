// Laws of sets, gaps and reads: functions that do nothing, whose clauses are theorems. They are for
// callers' proofs; no code calls them.
ghost use Rattle.range_set.specs.Calls.{InsertMeets, ReadDecides};
ghost use Rattle.range_set.specs.Gaps.{FirstGapIs, SameGap};
ghost use Rattle.range_set.specs.Stored.{EmptySet, OneSet, SetsWithin};
ghost use Rattle.range_set.specs.Told.{GapTold, RangesTold};

/// The first gap of a set is the first range of positions that aren't in it, and depends on its
/// positions alone.
pub fn first_gaps_are_of_positions()
    ensures first { FirstGapIs }
    ensures same { SameGap }
{}

/// A map has at most one set under a place, by its positions; what it has elsewhere doesn't matter.
/// Where it has nothing under the place, that is the set without positions.
pub fn sets_are_of_places()
    ensures one { OneSet }
    ensures within { SetsWithin }
    ensures empty { EmptySet }
{}

/// What `contains` adds to the ranges read decides its answer: maps that agree there, whatever they
/// have elsewhere, have the position in their sets alike. So a range with the position that is
/// inserted into a gap writes there.
pub fn reads_decide_positions()
    ensures decides { ReadDecides }
    ensures meets { InsertMeets }
{}

/// The ranges that pairs stand for are told by a function, just where the pairs are of the written
/// form. So is the first gap of each set that a map has, by the pairs that it has under the place.
pub fn pairs_tell_ranges()
    ensures ranges { RangesTold }
    ensures gap { GapTold }
{}
