//! The nodes of a tree while a pattern is read. A tree that is too tall is not kept: a mark stands for it.

ghost use Rattle.std.specs.Prelude.{◌≡◌, ◌<◌, ◌≤◌, ◌⊎◌, ℕ, suc, List, IfOk, MatchOption};
ghost use Rattle.bites_spec.specs.Grammar.{group_of};
ghost use Rattle.bites_spec.specs.Group.{Opening};
ghost use Rattle.bites_spec.specs.Measure.{height, IsTooTall};
ghost use Rattle.bites_spec.specs.Tree as spec;
ghost use Rattle.bites_spec.specs.Tree.{alternation_of, repetition_of, sequence_of, trees_of};
ghost use Rattle.bites_syntax.specs.Nodes.{AreNodes, ArePartsOf, IsNumbered, IsNodeOf};

use crate::name::Name;
use crate::operator::Bounds;
use crate::tree::Tree;
use std::alloc::{AllocError, Global};

/// A tree with its height, or a mark that the tree is too tall.
#[derive(Drop)]
pub(crate) enum Node {
    Kept { tree: Tree, height: u32 },
    TooTall,
}

/// The number and name of a group.
#[derive(Drop)]
pub(crate) struct Numbered {
    pub(crate) index: u32,
    pub(crate) name: Option<Name>,
}

/// The parts of a sequence or an alternation.
#[derive(Drop)]
enum Parts {
    None,
    One(Node),
    /// Two trees or more, and the height of a tree with these parts.
    Several { trees: Vec<Tree>, height: u32 },
    TooTall,
}

/// Returns the height of a tree whose tallest part has this height, or None if it is too great.
fn height_above(height: u32, limit: u32) -> Option<u32>
    ensures { MatchOption result ((limit < suc height) ⊎ (4294967295 ≤ suc height))
        (λ h. (h ≡ suc height) × (h ≤ limit) × (h < 4294967295)) }
{
    if height < limit && height < u32::MAX - 1 {
        Some(height + 1)
    } else {
        None
    }
}

impl Node {
    /// Returns the node of a tree with no parts.
    pub(crate) fn leaf(tree: Tree) -> Node
        requires { height tree ≡ 0 }
        ensures { (limit : ℕ) → IsNodeOf limit result tree }
    {
        Node::Kept { tree, height: 0 }
    }
}

/// Returns the node repeated. The only error is out of memory.
pub(crate) fn repetition_of(
    alloc: Global,
    bounds: Bounds,
    body: Node,
    limit: u32,
) -> Result<Node, AllocError>
    ensures { (t : spec.Tree) → IsNodeOf limit body t →
        IfOk result
        (λ node. IsNodeOf limit node (repetition_of bounds.min bounds.max bounds.greedy t)) }
{
    if bounds.max == Some(0) {
        return Ok(Node::leaf(Tree::empty()));
    }
    if bounds.min == 1 && bounds.max == Some(1) {
        return Ok(body);
    }
    repetition_node(alloc, bounds, body, limit)
}

fn repetition_node(
    alloc: Global,
    bounds: Bounds,
    body: Node,
    limit: u32,
) -> Result<Node, AllocError>
    ensures { (t : spec.Tree) → IsNodeOf limit body t →
        IfOk result
        (λ node. IsNodeOf limit node (spec.repetition bounds.min bounds.max bounds.greedy t)) }
{
    let Node::Kept { tree, height } = body else {
        return Ok(Node::TooTall);
    };
    let Some(height) = height_above(height, limit) else {
        return Ok(Node::TooTall);
    };
    let body = Box::new(alloc, tree)?;
    let tree = Tree::repetition(bounds.min, bounds.max, bounds.greedy, body);
    Ok(Node::Kept { tree, height })
}

fn capture_node(
    alloc: Global,
    numbered: Numbered,
    body: Node,
    limit: u32,
) -> Result<Node, AllocError>
    ensures { (t : spec.Tree) → IsNodeOf limit body t →
        IfOk result (λ node. IsNodeOf limit node (spec.group numbered.index numbered.name t)) }
{
    let Node::Kept { tree, height } = body else {
        return Ok(Node::TooTall);
    };
    let Some(height) = height_above(height, limit) else {
        return Ok(Node::TooTall);
    };
    let body = Box::new(alloc, tree)?;
    let tree = Tree::capture(numbered.index, numbered.name, body);
    Ok(Node::Kept { tree, height })
}

/// Returns the node of a group. The only error is out of memory.
pub(crate) fn group_of(
    alloc: Global,
    numbered: Option<Numbered>,
    choice: Node,
    limit: u32,
) -> Result<Node, AllocError>
    ensures { (opening : Opening) → (before : ℕ) → (branches : List spec.Tree) →
        IsNumbered numbered opening before → IsNodeOf limit choice (alternation_of branches) →
        IfOk result (λ node. IsNodeOf limit node (group_of opening before branches)) }
{
    match numbered {
        Some(numbered) => capture_node(alloc, numbered, choice, limit),
        None => Ok(choice),
    }
}

/// Returns the trees of the nodes and the height of the tallest one. Returns None if one is too
/// tall.
fn collect_trees(
    alloc: Global,
    nodes: Vec<Node>,
    limit: u32,
) -> Result<Option<(Vec<Tree>, u32)>, AllocError>
    ensures { (ts : List spec.Tree) → AreNodes limit nodes.items ts →
        IfOk result (λ o. MatchOption o (IsTooTall limit (spec.sequence (trees_of ts)))
        (λ p. (p.0.items ≡ ts) × (suc p.1 ≡ height (spec.sequence (trees_of ts))))) }
{
    let mut trees = Vec::with_capacity(alloc, nodes.len())?;
    let mut tallest = 0;
    for node in nodes {
        let Node::Kept { tree, height } = node else {
            return Ok(None);
        };
        trees.push(tree)?;
        tallest = height.max(tallest);
    }
    Ok(Some((trees, tallest)))
}

/// Returns the nodes as parts of a tree.
fn parts_of(alloc: Global, mut nodes: Vec<Node>, limit: u32) -> Result<Parts, AllocError>
    ensures { (ts : List spec.Tree) → AreNodes limit nodes.items ts →
        IfOk result (λ parts. ArePartsOf limit parts ts) }
{
    if nodes.len() < 2 {
        return Ok(match nodes.pop() {
            Some(node) => Parts::One(node),
            None => Parts::None,
        });
    }
    let Some((trees, tallest)) = collect_trees(alloc, nodes, limit)? else {
        return Ok(Parts::TooTall);
    };
    Ok(match height_above(tallest, limit) {
        Some(height) => Parts::Several { trees, height },
        None => Parts::TooTall,
    })
}

/// Returns the node of a sequence of the nodes. The only error is out of memory.
pub(crate) fn sequence_of(alloc: Global, nodes: Vec<Node>, limit: u32) -> Result<Node, AllocError>
    ensures { (ts : List spec.Tree) → AreNodes limit nodes.items ts →
        IfOk result (λ node. IsNodeOf limit node (sequence_of ts)) }
{
    Ok(match parts_of(alloc, nodes, limit)? {
        Parts::None => Node::leaf(Tree::empty()),
        Parts::One(node) => node,
        Parts::Several { trees, height } => Node::Kept {
            tree: Tree::concat(trees),
            height,
        },
        Parts::TooTall => Node::TooTall,
    })
}

/// Returns the node of an alternation of the nodes. The only error is out of memory.
pub(crate) fn alternation_of(
    alloc: Global,
    nodes: Vec<Node>,
    limit: u32,
) -> Result<Node, AllocError>
    ensures { (ts : List spec.Tree) → AreNodes limit nodes.items ts →
        IfOk result (λ node. IsNodeOf limit node (alternation_of ts)) }
{
    Ok(match parts_of(alloc, nodes, limit)? {
        Parts::None => Node::leaf(Tree::empty()),
        Parts::One(node) => node,
        Parts::Several { trees, height } => Node::Kept {
            tree: Tree::alternation(trees),
            height,
        },
        Parts::TooTall => Node::TooTall,
    })
}
