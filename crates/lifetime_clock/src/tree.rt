//! Entries in the order of their keys, in a tree that knows the least of its times.
//!
//! Neither side of a branch is more than one level higher than the other. That only makes the tree fast: no clause
//! speaks of heights.

ghost use Rattle.std.specs.Prelude.{◌≡◌, ◌≢◌, [], ◌∷◌, ◌++◌, ℕ, ◌<◌, length, IfSome, IfNone, IsTrue, ◌↔◌};
ghost use Rattle.lifetime_clock.specs.Tree.{entry_of, least_time, KeysRise, Has};
ghost use Rattle.lifetime_clock.specs.Split.{IsSplit};

use std::marker::Model;
use std::mem;

/// A key and its time, between the entries with smaller keys and those with greater ones.
#[cycle(tree)]
#[derive(Debug, Drop)]
pub struct Branch {
    pub key: u32,
    pub at: u64,
    /// The least time and the levels of the tree whose root this is.
    least: u64,
    height: u32,
    left: Tree,
    right: Tree,
}

/// Entries in some order.
#[cycle(tree)]
#[derive(Debug, Drop)]
pub struct Tree {
    root: Option<Box<Branch>>,
}

impl Model for Tree {
    ghost use Rattle.std.specs.Prelude.{ℕ, List, length};

    ghost Value = { List (ℕ × ℕ) };

    ghost use Rattle.lifetime_clock.specs.Rooted.{entries_of, KnowsLeast};

    ghost view = { λ tree. entries_of tree.root };

    ghost invariant = { λ tree. KnowsLeast tree.root };

    ghost size = { length };

    ghost use Rattle.lifetime_clock.specs.Smaller.{deep_le-length};

    ghost size_decreases = { λ tree h. deep_le-length tree.root };
}

impl Branch {
    /// A branch that holds nothing of worth.
    pub fn new() -> Branch {
        Branch {
            key: 0,
            at: 0,
            least: 0,
            height: 0,
            left: Tree::new(),
            right: Tree::new(),
        }
    }

    /// The branch with this key and time.
    pub fn holding(mut self: Box<Self>, key: u32, at: u64) -> Box<Branch>
        ensures { entry_of result.value ≡ (key, at) }
    {
        self.key = key;
        self.at = at;
        self
    }
}

impl Tree {
    /// No entries.
    pub fn new() -> Tree
        ensures { result ≡ [] }
    {
        Tree { root: None }
    }

    /// Has the entries of `tree` in place of its own.
    pub fn store(&mut self, tree: Tree)
        ensures { self.new ≡ tree }
    {
        *self = tree;
    }

    pub fn is_empty(&self) -> bool
        ensures { IsTrue result ↔ (self.now ≡ []) }
    {
        self.root.is_none()
    }

    /// The least of the times; the greatest u64 where there are no entries.
    pub fn least(&self) -> u64
        ensures { result ≡ least_time self.now }
    {
        match &self.root {
            None => u64::MAX,
            Some(branch) => branch.least,
        }
    }

    /// The levels of the tree.
    pub fn height(&self) -> u32 {
        match &self.root {
            None => 0,
            Some(branch) => branch.height,
        }
    }

    /// The entries before the root, the root, and those behind it.
    fn open(self) -> Option<(Tree, Box<Branch>, Tree)>
        ensures none { IfNone result (self ≡ []) }
        ensures parts { IfSome result (λ parts. self ≡ parts.0 ++ entry_of parts.1.value ∷ parts.2) }
    {
        let mut branch = self.root?;
        let left = mem::replace(&mut branch.left, Tree::new());
        let right = mem::replace(&mut branch.right, Tree::new());
        Some((left, branch, right))
    }

    /// The tree with this root between these entries.
    fn close(left: Tree, mut branch: Box<Branch>, right: Tree) -> Tree
        ensures { result ≡ left ++ entry_of branch.value ∷ right }
    {
        branch.least = branch.at.min(left.least()).min(right.least());
        branch.height = left.height().max(right.height()).saturating_add(1);
        branch.left = left;
        branch.right = right;
        Tree { root: Some(branch) }
    }

    /// Whether it is at least two levels higher than the other.
    fn is_higher(&self, other: &Tree) -> bool {
        self.height() > other.height().saturating_add(1)
    }

    /// As `close`, where one side may be two levels higher than the other.
    fn balance(left: Tree, branch: Box<Branch>, right: Tree) -> Tree
        ensures { result ≡ left ++ entry_of branch.value ∷ right }
    {
        if left.is_higher(&right) {
            Tree::lift_left(left, branch, right)
        } else if right.is_higher(&left) {
            Tree::lift_right(left, branch, right)
        } else {
            Tree::close(left, branch, right)
        }
    }

    /// As `close`, with a root out of the left side.
    fn lift_left(left: Tree, branch: Box<Branch>, right: Tree) -> Tree
        ensures { result ≡ left ++ entry_of branch.value ∷ right }
    {
        let Some((outer, top, inner)) = left.open() else {
            return Tree::close(Tree::new(), branch, right);
        };
        if inner.height() <= outer.height() {
            return Tree::close(outer, top, Tree::close(inner, branch, right));
        }
        let Some((before, middle, behind)) = inner.open() else {
            return Tree::close(outer, top, Tree::close(Tree::new(), branch, right));
        };
        let lower = Tree::close(outer, top, before);
        Tree::close(lower, middle, Tree::close(behind, branch, right))
    }

    /// As `close`, with a root out of the right side.
    fn lift_right(left: Tree, branch: Box<Branch>, right: Tree) -> Tree
        ensures { result ≡ left ++ entry_of branch.value ∷ right }
    {
        let Some((inner, top, outer)) = right.open() else {
            return Tree::close(left, branch, Tree::new());
        };
        if inner.height() <= outer.height() {
            return Tree::close(Tree::close(left, branch, inner), top, outer);
        }
        let Some((before, middle, behind)) = inner.open() else {
            return Tree::close(Tree::close(left, branch, Tree::new()), top, outer);
        };
        let lower = Tree::close(left, branch, before);
        Tree::close(lower, middle, Tree::close(behind, top, outer))
    }

    /// The entries of the left tree, the branch, and those of the right one, whatever the heights.
    pub fn join(left: Tree, branch: Box<Branch>, right: Tree) -> Tree
        ensures { result ≡ left ++ entry_of branch.value ∷ right }
    {
        if left.is_higher(&right) {
            match left.open() {
                Some((outer, top, inner)) => {
                    Tree::balance(outer, top, Tree::join(inner, branch, right))
                }
                None => Tree::close(Tree::new(), branch, right),
            }
        } else if right.is_higher(&left) {
            match right.open() {
                Some((inner, top, outer)) => {
                    Tree::balance(Tree::join(left, branch, inner), top, outer)
                }
                None => Tree::close(left, branch, Tree::new()),
            }
        } else {
            Tree::close(left, branch, right)
        }
    }

    /// The first branch, and the entries behind it.
    fn take_first(self) -> Option<(Box<Branch>, Tree)>
        ensures none { IfNone result (self ≡ []) }
        ensures parts { IfSome result (λ parts. self ≡ entry_of parts.0.value ∷ parts.1) }
    {
        let (left, branch, right) = self.open()?;
        match left.take_first() {
            Some((first, rest)) => Some((first, Tree::join(rest, branch, right))),
            None => Some((branch, right)),
        }
    }

    /// The entries of the left tree, then those of the right one.
    pub fn merge(left: Tree, right: Tree) -> Tree
        ensures { result ≡ left ++ right }
    {
        match right.take_first() {
            Some((first, rest)) => Tree::join(left, first, rest),
            None => left,
        }
    }

    /// What stands on the two sides of a key, and its own branch if it is there.
    pub fn split(self, key: u32) -> Split
        requires { KeysRise self }
        ensures { IsSplit self key result }
    {
        let Some((left, branch, right)) = self.open() else {
            return Split {
                below: Tree::new(),
                found: None,
                above: Tree::new(),
            };
        };
        if key < branch.key {
            let Split {
                below,
                found,
                above,
            } = left.split(key);
            return Split {
                below,
                found,
                above: Tree::join(above, branch, right),
            };
        }
        if key > branch.key {
            let Split {
                below,
                found,
                above,
            } = right.split(key);
            return Split {
                below: Tree::join(left, branch, below),
                found,
                above,
            };
        }
        Split {
            below: left,
            found: Some(branch),
            above: right,
        }
    }

    /// A key with the least time.
    pub fn least_key(&self) -> u32
        requires { 0 < length self.now }
        ensures { Has self.now result (least_time self.now) }
    {
        match &self.root {
            None => unreachable!(),
            Some(branch) => {
                if branch.at == branch.least {
                    branch.key
                } else if branch.left.least() == branch.least {
                    branch.left.least_key()
                } else {
                    branch.right.least_key()
                }
            }
        }
    }
}

/// The entries with smaller keys, the branch of the key, and those with greater keys.
#[derive(Drop)]
pub struct Split {
    pub below: Tree,
    pub found: Option<Box<Branch>>,
    pub above: Tree,
}
