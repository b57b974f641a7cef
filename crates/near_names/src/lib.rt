//! Names that aren't known, and the known ones that are near them.
#![tactic(auto)]

ghost use Rattle.std.specs.Prelude.{◌≡◌, ◌<◌, ◌≤◌, ℕ, List, [], ◌∷◌, ◌++◌, IfOk, Ok, None};
ghost use Rattle.std.specs.Prelude.{length, map, option_map};
ghost use Rattle.near_names.specs.Near.{IsBest, IsNearestIn, too_many};

use std::alloc::{AllocError, Global};
use strsim::osa_distance;

// The longest name of which a near one is sought, in bytes.
const MOST_LETTERS: usize = 40;

// The least number of wrong letters that is too many in a name of so many bytes.
fn too_many(length: usize) -> usize
    ensures { result ≡ too_many length }
{
    match length {
        0..=2 => 2,
        3..=5 => 3,
        _ => 4,
    }
}

// The nearest of the names that were looked at, and fewer mistakes than which a nearer one has.
#[derive(Clone, Copy, Drop)]
struct Best<'a> {
    least: usize,
    found: Option<&'a str>,
}

// The nearest after one name more.
#[tactic(auto, using(crate::proofs::Names::best_nearer, crate::proofs::Names::best_same))]
fn nearer<'a>(
    alloc: Global,
    name: &str,
    best: Best<'a>,
    one: &'a str,
) -> Result<Best<'a>, AllocError>
    ensures { IfOk result (λ new. (known : List (List ℕ))
        → IsBest name.now known best.entry.least (option_map (λ k. k.now) best.entry.found)
        → IsBest name.now (known ++ one.now ∷ []) new.least (option_map (λ k. k.now) new.found)) }
{
    let mistakes = osa_distance(alloc, name, one)?;
    if mistakes < best.least && mistakes < one.len().max(name.len()) {
        let (least, found) = (mistakes, Some(one));
        Ok(Best { least, found })
    } else {
        Ok(best)
    }
}

// The nearest of the known names.
fn nearest_of<'a>(
    alloc: Global,
    name: &str,
    known: &[&'a str],
) -> Result<Option<&'a str>, AllocError>
    ensures { IfOk result (λ found.
        IsNearestIn name.now (map (λ one. one.now) known.now) (option_map (λ one. one.now) found)) }
{
    let mut best = Best {
        least: too_many(name.len()),
        found: None,
    };
    for one in known {
        best = nearer(alloc, name, best, one)?;
    }
    Ok(best.found)
}

/// The first of the known names that has the fewest letters to be mended, where they are few. None
/// of a name of more than 40 bytes.
pub fn nearest<'a>(
    alloc: Global,
    name: &str,
    known: &[&'a str],
) -> Result<Option<&'a str>, AllocError>
    ensures near { length name.now ≤ 40 → IfOk result (λ found.
        IsNearestIn name.now (map (λ one. one.now) known.now) (option_map (λ one. one.now) found)) }
    ensures long { 40 < length name.now → result ≡ Ok None }
{
    if name.len() > MOST_LETTERS {
        return Ok(None);
    }
    nearest_of(alloc, name, known)
}
