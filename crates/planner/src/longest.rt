//! The path of the longest match. Called by `serving`; its paths are used by `planning`, `unions`,
//! `draft` and `nodes_of` too.
ghost use Rattle.std.specs.Prelude.{◌≡◌, map, fold, option_map};
ghost use Rattle.planner.specs.Match.{path_number};
ghost use Rattle.planner.specs.Planned.{longest, longer_of};
ghost use Rattle.planner.specs.View.{path_of, matched_of};

use crate::matching::{Match, is_longer};
use metadata::IndexDefinition;

/// A way to the records: along their keys, or along an index.
#[derive(Clone, Copy)]
pub(crate) enum Path<'a> {
    Primary,
    Along(&'a IndexDefinition),
}

/// A path with its match.
#[derive(Drop)]
pub(crate) struct Matched<'a> {
    pub path: Path<'a>,
    pub columns: Match<'a>,
}

/// The number of a path; that of the primary path is 0.
pub(crate) fn path_number(path: Path) -> u64
    ensures { result ≡ path_number (path_of path.entry) }
{
    match path {
        Path::Primary => 0,
        Path::Along(index) => index.number,
    }
}

/// The path of the longest match.
pub(crate) fn longest<'s, 'a>(paths: &'s [Matched<'a>]) -> Option<&'s Matched<'a>>
    ensures { option_map (λ p. matched_of p.now) result ≡ longest (map matched_of paths.now) }
{
    match paths {
        [] => None,
        [first, rest @ ..] => Some(longest_of(first, rest)),
    }
}

/// The longest of one and others.
fn longest_of<'s, 'a>(best: &'s Matched<'a>, paths: &'s [Matched<'a>]) -> &'s Matched<'a>
    ensures { matched_of result.now
        ≡ fold longer_of (matched_of best.now) (map matched_of paths.now) }
{
    match paths {
        [] => best,
        [path, rest @ ..] => {
            if is_longer(
                path_number(path.path),
                &path.columns,
                path_number(best.path),
                &best.columns,
            ) {
                longest_of(path, rest)
            } else {
                longest_of(best, rest)
            }
        }
    }
}
