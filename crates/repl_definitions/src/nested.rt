//! Trees, spelled node after node: the root, then the tree at its left, then that at its right.
//!
//! A stored tree may be nested as deep as a stored value is long, so neither reading nor writing
//! recurses on it.

ghost use Rattle.std.specs.Prelude.{◌≡◌, ◌≢◌, ◌++◌, ◌∷◌, ◌+◌, [], ℕ, List, OnOk, IfOk, IfNone};
ghost use Rattle.std.specs.Prelude.{IfSome, MatchOption};
ghost use Rattle.std.specs.List.{flat_map, AllByRecursion};
ghost use Rattle.repl_definitions.specs.declared.nested.Root.{Root};
ghost use Rattle.repl_definitions.specs.declared.nested.Root.TheVariants.{Single, Joined};
ghost use Rattle.row_codec.specs.Takes.{NoPrefix, One};
ghost use Rattle.repl_definitions.specs.Forests.{IsForest, IsLeaf, nodes_spelling, NodesFit};
ghost use Rattle.repl_definitions.specs.PendingTrees.{pending_nodes, owed};

use row_codec::TakeError;
use std::alloc::{AllocError, Global};

/// The node at the top of a tree: a leaf, or what joins two trees.
#[derive(Drop)]
pub(crate) enum Root<L, J> {
    Single(L),
    Joined(J),
}

/// A tree. A clause sees it as the list of its nodes, in the order in which they are spelled.
pub(crate) trait Nested: Sized + Drop {
    /// A tree of one node.
    type Leaf: Drop;

    /// What joins two trees.
    type Joint: Drop;

    /// Which of the nodes that a clause can speak of are nodes that have a spelling.
    ghost node_fits: { Root Self.Leaf Self.Joint → Type 0 };

    /// What a node must meet beside its type to have a spelling.
    ghost has_node_spelling: { Root Self.Leaf Self.Joint → Type 0 };

    /// The bytes of a node.
    ghost node_spelling: { Root Self.Leaf Self.Joint → List ℕ };

    /// The node at the top.
    ghost top: { Self → Root Self.Leaf Self.Joint };

    /// The nodes of a tree, in the order in which they are spelled.
    ghost nodes: { Self → List (Root Self.Leaf Self.Joint) };

    /// The node whose spelling the bytes begin with, and the bytes after it.
    fn take_root(
        alloc: Global,
        bytes: &[u8],
    ) -> Result<(Root<Self::Leaf, Self::Joint>, &[u8]), TakeError>
        ensures ok { IfOk result (λ taken. node_fits taken.0
            × (bytes.now ≡ node_spelling taken.0 ++ taken.1.now)) }
        ensures spelling { result ≡ Err TakeError.Spelling
            → NoPrefix node_fits node_spelling bytes.now };

    /// Appends the spelling of the node at the top, and gives the trees below it.
    fn put_root(&self, out: &mut Vec<u8>) -> Result<Option<(&Self, &Self)>, AllocError>
        requires { has_node_spelling (top self.now) }
        ensures ok { OnOk result (out.new.items ≡ out.old.items ++ node_spelling (top self.now)) }
        ensures fits { OnOk result (node_fits (top self.now)) }
        ensures below { IfOk result (λ below. MatchOption below (nodes self.now ≡ top self.now ∷ [])
            (λ pair. nodes self.now ≡ top self.now ∷ nodes pair.0.now ++ nodes pair.1.now)) };

    /// What joins the two trees below the top, and these trees; None for a leaf.
    fn branches(&self) -> Option<(Self::Joint, &Self, &Self)>
        ensures { MatchOption result
            (IsLeaf (top self.now))
            (λ parts.
            nodes self.now ≡ Joined parts.0 ∷ nodes parts.1.now ++ nodes parts.2.now) };

    /// A copy of a tree that is one leaf.
    fn copy_leaf(&self) -> Result<Self, AllocError>
        requires { IsLeaf (top self.now) }
        ensures { IfOk result (λ copy. copy ≡ self.now) };

    /// The tree that is one leaf.
    fn leaf(leaf: Self::Leaf) -> Self
        ensures { nodes result ≡ Single leaf ∷ [] };

    /// Two trees below a node.
    fn join(alloc: Global, joint: Self::Joint, left: Self, right: Self) -> Result<Self, AllocError>
        ensures { IfOk result (λ tree. nodes tree ≡ Joined joint ∷ nodes left ++ nodes right) };

    /// Bytes begin with the spelling of at most one node.
    ghost one_node: { One node_fits node_spelling };

    /// A node has at least one byte.
    ghost filled: { (node : Root Self.Leaf Self.Joint) → node_spelling node ≢ [] };

    /// The nodes of a tree are one tree.
    ghost forest: { (tree : Self) → IsForest 1 (nodes tree) };

    /// The first node of a tree is the node at its top.
    ghost first: { (tree : Self)
        → (rest : List (Root Self.Leaf Self.Joint)) × (nodes tree ≡ top tree ∷ rest) };

    /// Trees of equal nodes are equal.
    ghost same: { (x y : Self) → nodes x ≡ nodes y → x ≡ y };
}

/// A node whose trees aren't both read.
#[derive(Drop)]
pub(crate) struct Pending<J, T> {
    pub(crate) joint: J,
    pub(crate) left: Option<T>,
}

/// The tree whose spelling the bytes begin with, and the bytes after it.
pub(crate) fn take_nested<T: Nested>(alloc: Global, bytes: &[u8]) -> Result<(T, &[u8]), TakeError>
    ensures ok { IfOk result (λ taken. NodesFit T.node_fits (T.nodes taken.0)
        × (bytes.now ≡ nodes_spelling T.node_spelling (T.nodes taken.0) ++ taken.1.now)) }
    ensures spelling { result ≡ Err TakeError.Spelling
        → ((tree : T) (rest : List ℕ) → NodesFit T.node_fits (T.nodes tree)
        → bytes.now ≢ nodes_spelling T.node_spelling (T.nodes tree) ++ rest) }
{
    let mut pending = Vec::new(alloc);
    let mut left = bytes;
    loop {
        let (root, rest) = T::take_root(alloc, left)?;
        left = rest;
        match root {
            Root::Joined(joint) => pending.push(Pending { joint, left: None })?,
            Root::Single(leaf) => {
                if let Some(tree) = settle(alloc, &mut pending, T::leaf(leaf))? {
                    return Ok((tree, left));
                }
            }
        }
    }
}

/// Puts a tree that is read below the node that waits for it, and so on if that is then a whole
/// tree. It gives the tree if no node is left to wait.
fn settle<T: Nested>(
    alloc: Global,
    pending: &mut Vec<Pending<T::Joint, T>>,
    tree: T,
) -> Result<Option<T>, AllocError>
    ensures waits { IfOk result (λ whole. IfNone whole
        ((pending_nodes T.nodes pending.new.items ≡ pending_nodes T.nodes pending.old.items
        ++ T.nodes tree) × (owed pending.new.items + 1 ≡ owed pending.old.items))) }
    ensures whole { IfOk result (λ whole. IfSome whole
        (λ found. (T.nodes found ≡ pending_nodes T.nodes pending.old.items ++ T.nodes tree)
        × (owed pending.old.items ≡ 0))) }
{
    let mut whole = tree;
    while let Some(node) = pending.pop() {
        let Pending { joint, left } = node;
        match left {
            Some(left) => whole = T::join(alloc, joint, left, whole)?,
            None => {
                pending.push(Pending {
                    joint,
                    left: Some(whole),
                })?;
                return Ok(None);
            }
        }
    }
    Ok(Some(whole))
}

/// Appends the spelling of a tree. If memory runs out, what `out` holds is unspecified.
pub(crate) fn put_nested<T: Nested>(tree: &T, out: &mut Vec<u8>) -> Result<(), AllocError>
    requires { NodesFit T.has_node_spelling (T.nodes tree.now) }
    ensures ok { OnOk result (out.new.items
        ≡ out.old.items ++ nodes_spelling T.node_spelling (T.nodes tree.now)) }
    ensures fits { OnOk result (NodesFit T.node_fits (T.nodes tree.now)) }
{
    let mut waiting = Vec::new(*out.allocator());
    waiting.push(tree)?;
    while let Some(next) = waiting.pop() {
        if let Some((left, right)) = next.put_root(out)? {
            waiting.push(right)?;
            waiting.push(left)?;
        }
    }
    Ok(())
}

/// A copy of a tree.
pub(crate) fn clone_nested<T: Nested>(alloc: Global, tree: &T) -> Result<T, AllocError>
    ensures { IfOk result (λ copy. copy ≡ tree.now) }
{
    let mut waiting = Vec::new(alloc);
    waiting.push(tree)?;
    let mut pending = Vec::new(alloc);
    while let Some(next) = waiting.pop() {
        if let Some((joint, left, right)) = next.branches() {
            waiting.push(right)?;
            waiting.push(left)?;
            pending.push(Pending { joint, left: None })?;
        } else if let Some(copy) = settle(alloc, &mut pending, next.copy_leaf()?)? {
            return Ok(copy);
        }
    }
    unreachable!()
}
