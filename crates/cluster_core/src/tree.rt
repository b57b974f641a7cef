//! Segments in key order, in a balanced tree. Used by `segments`.

ghost use Rattle.std.specs.Prelude.{◌≡◌, ◌≤◌, ◌<◌, ◌+◌, ◌++◌, ◌∷◌, [], ℕ, max, nat_le, IsTrue};
ghost use Rattle.std.specs.Prelude.{List, Some, None, IfNone, IfOk, IfSome, MatchBool, MatchOption};
ghost use Rattle.std.specs.List.{filter};
ghost use Rattle.kv_core.specs.Bytes.{key_lt};
ghost use Rattle.cluster_core.specs.Segments.{Begins};
ghost use Rattle.cluster_core.specs.Tree.{AreNear, InOrder, IsJoined, IsLaid, IsLastUpto, between};
ghost use Rattle.cluster_core.specs.Tree.{IsShallow, IsSplit, empty, forked, later, newest_of};
ghost use Rattle.cluster_core.specs.declared.tree.TheConstants.{MOST_LEVELS};

use crate::segments::Segment;
use kv_core::Bytes;
use std::alloc::{AllocError, Global};
use std::marker::Model;
use std::mem;

/// How high a tree may be into which a node is laid, which makes it by three higher at most.
const MOST_LEVELS: u8 = 250;

/// Segments in the order of their begins. The sides of each node differ in height by two at most,
/// so the height is logarithmic in the number of segments.
#[cycle(tree)]
#[derive(Debug, Drop)]
pub(crate) struct Tree {
    root: Option<Box<Node>>,
}

/// A segment with its begin, those before and after it, and the newest place of them all.
#[cycle(tree)]
#[derive(Debug, Drop)]
pub(crate) struct Node {
    pub begin: Bytes,
    pub segment: Segment,
    newest: usize,
    height: u8,
    left: Tree,
    right: Tree,
}

impl Model for Tree {
    ghost use Rattle.std.specs.Prelude.{length};
    ghost use Rattle.cluster_core.specs.Tree.{Shape};

    ghost Value = { Shape };

    ghost use Rattle.cluster_core.specs.TreeNode.{IsBalanced, shape};

    ghost view = { λ a. shape a.root };

    ghost invariant = { λ a. IsBalanced a.root };

    ghost size = { λ tree. length tree.entries };

    ghost use Rattle.std.proofs.Common.{arith, length-append};

    ghost size_decreases = { λ a h. Prim.grind (arith, length-append) };
}

/// The later of two places, where the first may not be there.
pub(crate) fn later(newest: Option<usize>, place: usize) -> usize
    ensures { Some result ≡ later newest (Some place) }
{
    match newest {
        Some(own) => own.max(place),
        None => place,
    }
}

impl Node {
    /// A node with nothing on its sides, unless memory runs out.
    pub fn new(alloc: Global, begin: Bytes, segment: Segment) -> Result<Box<Node>, AllocError>
        ensures { IfOk result (λ node.
            (node.value.begin ≡ begin) × (node.value.segment ≡ segment)) }
    {
        let node = Node {
            begin,
            newest: segment.place,
            segment,
            height: 1,
            left: Tree::new(),
            right: Tree::new(),
        };
        Ok(Box::new(alloc, node)?)
    }
}

impl Tree {
    /// No segments, which takes no memory.
    pub fn new() -> Tree
        ensures { result ≡ empty }
    {
        Tree { root: None }
    }

    /// One segment.
    pub fn single(node: Box<Node>) -> Tree
        ensures { result ≡ forked empty node.value.begin node.value.segment empty }
    {
        fork(Tree::new(), node, Tree::new())
    }

    /// How many nodes there are from the top down to the farthest: at most twice the logarithm of
    /// their number.
    fn height(&self) -> u8
        ensures height { result ≡ self.now.height }
        ensures shallow { IsShallow self.now }
    {
        match &self.root {
            Some(node) => node.height,
            None => 0,
        }
    }

    /// Whether this tree is too high to stand beside another one.
    fn is_too_high(&self, other: &Tree) -> bool
        ensures { MatchBool result (other.now.height + 2 < self.now.height)
            (self.now.height ≤ other.now.height + 2) }
    {
        self.height() > other.height().saturating_add(2)
    }

    /// Whether nodes may be laid into this tree. One that is too high for it has 2^125 segments, so
    /// there is always room.
    pub fn has_room(&self) -> bool
        ensures { MatchBool result (self.now.height ≤ MOST_LEVELS)
            (MOST_LEVELS < self.now.height) }
    {
        self.height() <= MOST_LEVELS
    }

    /// The newest place.
    fn newest(&self) -> Option<usize>
        ensures { result ≡ newest_of self.now.entries }
    {
        match &self.root {
            Some(node) => Some(node.newest),
            None => None,
        }
    }

    /// The newest place of the segments that begin after a key.
    fn newest_after(&self, low: &Bytes) -> Option<usize>
        requires { InOrder self.now.entries }
        ensures { result ≡ newest_of (filter (λ e. key_lt low.now e.0) self.now.entries) }
    {
        let Some(node) = &self.root else {
            return None;
        };
        let node: &Node = node;
        if !low.is_before(&node.begin) {
            return node.right.newest_after(low);
        }
        let newest = later(node.left.newest_after(low), node.segment.place);
        Some(later(node.right.newest(), newest))
    }

    /// The newest place of the segments that begin before a key.
    fn newest_before(&self, high: &Bytes) -> Option<usize>
        requires { InOrder self.now.entries }
        ensures { result ≡ newest_of (filter (λ e. key_lt e.0 high.now) self.now.entries) }
    {
        let Some(node) = &self.root else {
            return None;
        };
        let node: &Node = node;
        if !node.begin.is_before(high) {
            return node.left.newest_before(high);
        }
        let newest = later(node.left.newest(), node.segment.place);
        Some(later(node.right.newest_before(high), newest))
    }

    /// The newest place of the segments that begin after one key and before another.
    pub fn newest_between(&self, low: &Bytes, high: &Bytes) -> Option<usize>
        requires { InOrder self.now.entries }
        ensures { result ≡ newest_of (between low.now high.now self.now.entries) }
    {
        let Some(node) = &self.root else {
            return None;
        };
        let node: &Node = node;
        if !low.is_before(&node.begin) {
            return node.right.newest_between(low, high);
        }
        if !node.begin.is_before(high) {
            return node.left.newest_between(low, high);
        }
        let newest = later(node.left.newest_after(low), node.segment.place);
        Some(later(node.right.newest_before(high), newest))
    }

    /// The last segment that begins at a key or before it.
    pub fn last_upto(&self, key: &Bytes) -> Option<&Node>
        requires { InOrder self.now.entries }
        ensures some { IfSome result (λ node.
            IsLastUpto self.now.entries key.now node.now.begin node.now.segment) }
        ensures none { IfNone result ((begin : List ℕ) (segment : Segment) →
            Begins self.now.entries begin segment → IsTrue (key_lt key.now begin)) }
    {
        let Some(node) = &self.root else {
            return None;
        };
        let node: &Node = node;
        if key.is_before(&node.begin) {
            return node.left.last_upto(key);
        }
        match node.right.last_upto(key) {
            Some(last) => Some(last),
            None => Some(node),
        }
    }

    /// The node at the top, between what is on its left and on its right.
    fn open(self) -> Option<(Tree, Box<Node>, Tree)>
        ensures parts { MatchOption result (self ≡ empty) (λ parts.
            self ≡ forked parts.0 parts.1.value.begin parts.1.value.segment parts.2) }
        ensures near { IfSome result (λ parts. AreNear 2 parts.0.height parts.2.height) }
        ensures height { self.height < 256 }
    {
        let mut node = self.root?;
        let left = mem::replace(&mut node.left, Tree::new());
        let right = mem::replace(&mut node.right, Tree::new());
        Some((left, node, right))
    }

    /// The segments that begin before a key, and those that begin from it on.
    pub fn split(self, key: &Bytes) -> (Tree, Tree)
        requires { InOrder self.entries }
        ensures parts { IsSplit self.entries key.now result.0.entries result.1.entries }
        ensures before { result.0.height ≤ self.height }
        ensures from { result.1.height ≤ self.height }
    {
        let Some((left, node, right)) = self.open() else {
            return (Tree::new(), Tree::new());
        };
        if node.begin.is_before(key) {
            let (before, from) = right.split(key);
            (join(left, node, before), from)
        } else {
            let (before, from) = left.split(key);
            (before, join(from, node, right))
        }
    }

    /// Puts a node in the place of those that begin from its begin on and before its end, and
    /// behind it the rest of the last of them.
    pub fn lay(&mut self, node: Box<Node>, rest: Tree)
        requires order { InOrder self.old.entries }
        requires room { self.old.height ≤ MOST_LEVELS }
        requires single { rest.height ≤ 1 }
        ensures { IsLaid node.value.begin node.value.segment rest.entries
            self.old.entries self.new.entries }
    {
        let (before, onward) = mem::replace(self, Tree::new()).split(&node.begin);
        let (_, after) = onward.split(&node.segment.end);
        *self = join(before, node, concat(rest, after));
    }

    /// The last node, and what is before it.
    fn take_last(self) -> Option<(Tree, Box<Node>)>
        ensures parts { MatchOption result (self ≡ empty) (λ parts. self.entries
            ≡ parts.0.entries ++ (parts.1.value.begin, parts.1.value.segment) ∷ []) }
        ensures height { IfSome result (λ parts. parts.0.height ≤ self.height) }
    {
        let (left, node, right) = self.open()?;
        match right.take_last() {
            Some((rest, last)) => Some((join(left, node, rest), last)),
            None => Some((left, node)),
        }
    }

    /// The segments with this place or a later one.
    pub fn since(self, least: usize) -> Tree
        ensures entries { result.entries ≡ filter (λ e. nat_le least e.1.place) self.entries }
        ensures height { result.height ≤ self.height }
    {
        let Some((left, node, right)) = self.open() else {
            return Tree::new();
        };
        let left = left.since(least);
        let right = right.since(least);
        if node.segment.place >= least {
            join(left, node, right)
        } else {
            concat(left, right)
        }
    }
}

/// A tree with this node at the top, between sides that are about as high.
fn fork(left: Tree, mut top: Box<Node>, right: Tree) -> Tree
    requires near { AreNear 2 left.height right.height }
    requires room { max left.height right.height < 255 }
    ensures { result ≡ forked left top.value.begin top.value.segment right }
{
    let height = left.height().max(right.height()) + 1;
    let newest = later(right.newest(), later(left.newest(), top.segment.place));
    let node: &mut Node = &mut top;
    node.height = height;
    node.newest = newest;
    node.left = left;
    node.right = right;
    Tree { root: Some(top) }
}

/// The same as `fork`, for a left side that is too high: its node comes to the top, or the node on
/// the right below that one.
fn turn_right(left: Tree, top: Box<Node>, right: Tree) -> Tree
    requires high { left.height ≡ right.height + 3 }
    requires room { left.height < 255 }
    ensures { IsJoined left top.value.begin top.value.segment right result }
{
    let Some((outer, child, inner)) = left.open() else {
        return fork(Tree::new(), top, right);
    };
    if inner.height() <= outer.height() {
        return fork(outer, child, fork(inner, top, right));
    }
    let Some((low, middle, high)) = inner.open() else {
        return fork(outer, child, fork(Tree::new(), top, right));
    };
    fork(fork(outer, child, low), middle, fork(high, top, right))
}

/// The same as `fork`, for a right side that is too high: its node comes to the top, or the node on
/// the left below that one.
fn turn_left(left: Tree, top: Box<Node>, right: Tree) -> Tree
    requires high { right.height ≡ left.height + 3 }
    requires room { right.height < 255 }
    ensures { IsJoined left top.value.begin top.value.segment right result }
{
    let Some((inner, child, outer)) = right.open() else {
        return fork(left, top, Tree::new());
    };
    if inner.height() <= outer.height() {
        return fork(fork(left, top, inner), child, outer);
    }
    let Some((low, middle, high)) = inner.open() else {
        return fork(fork(left, top, Tree::new()), child, outer);
    };
    fork(fork(left, top, low), middle, fork(high, child, outer))
}

/// The same as `fork`, for sides whose heights differ by three at most.
fn balance(left: Tree, top: Box<Node>, right: Tree) -> Tree
    requires near { AreNear 3 left.height right.height }
    requires room { max left.height right.height < 255 }
    ensures joined { IsJoined left top.value.begin top.value.segment right result }
    ensures even { AreNear 2 left.height right.height →
        result.height ≡ max left.height right.height + 1 }
{
    if left.is_too_high(&right) {
        turn_right(left, top, right)
    } else if right.is_too_high(&left) {
        turn_left(left, top, right)
    } else {
        fork(left, top, right)
    }
}

/// A tree of a node between two others of any heights. It goes down the higher one until both are
/// about as high.
fn join(left: Tree, middle: Box<Node>, right: Tree) -> Tree
    requires { max left.height right.height < 255 }
    ensures { IsJoined left middle.value.begin middle.value.segment right result }
{
    if left.is_too_high(&right) {
        let Some((outer, top, inner)) = left.open() else {
            return fork(Tree::new(), middle, right);
        };
        balance(outer, top, join(inner, middle, right))
    } else if right.is_too_high(&left) {
        let Some((inner, top, outer)) = right.open() else {
            return fork(left, middle, Tree::new());
        };
        balance(join(left, middle, inner), top, outer)
    } else {
        fork(left, middle, right)
    }
}

/// The segments of two trees, one after the other.
fn concat(left: Tree, right: Tree) -> Tree
    requires { max left.height right.height < 255 }
    ensures entries { result.entries ≡ left.entries ++ right.entries }
    ensures height { result.height ≤ max left.height right.height + 1 }
{
    match left.take_last() {
        Some((rest, last)) => join(rest, last, right),
        None => right,
    }
}
