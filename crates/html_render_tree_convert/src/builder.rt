//! Trees that are written in pre-order, from the first node to the last.

ghost use Rattle.std.specs.Prelude.{◌≡◌, [], ◌∷◌, ◌++◌, ◌+◌, IfOk, List, OnOk, take, drop, length, map, vec_capacity, vec_len, ◌<◌};
ghost use Rattle.html_render_layout_nodes.specs.RenderNodes.{without_style};
ghost use Rattle.html_render_layout_nodes.specs.declared.tree.Entry.{Entry};
ghost use Rattle.html_render_layout_nodes.specs.declared.tree.RenderNode.{RenderNode};
ghost use Rattle.html_render_tree_convert.specs.Held.{leaf, sized, with_kind};
ghost use Rattle.html_render_tree_convert.specs.Steps.{node_in};

use html_render_layout_nodes::text::NodeText;
use html_render_layout_nodes::tree::{Entry, Estimate, NodeKind, NodeStyle, RenderNode};
use std::alloc::{AllocError, Global};

/// Nodes that are written, in pre-order.
pub type Tree = Vec<Entry<RenderNode>>;

/// Appends a node without children.
#[inline(always)]
pub fn put(node: RenderNode, tree: &mut Tree) -> Result<(), AllocError>
    ensures { OnOk result (tree.new.items ≡ tree.old.items ++ leaf node ∷ []) }
{
    tree.reserve(1)?;
    tree.push_reserved(Entry {
        node,
        subtree_len: 1,
    });
    Ok(())
}

/// Appends an unmeasured node without children. There is room for it.
#[inline(always)]
fn put_reserved(style: NodeStyle, kind: NodeKind, tree: &mut Tree)
    requires { vec_len tree.old < vec_capacity tree.old }
    ensures { tree.new.items ≡ tree.old.items ++ leaf (node_in style kind) ∷ [] }
{
    tree.push_reserved(Entry {
        node: RenderNode {
            kind,
            style,
            estimate: Estimate::default(),
        },
        subtree_len: 1,
    });
}

/// Appends an unmeasured node without children.
#[inline(always)]
pub fn put_kind(style: NodeStyle, kind: NodeKind, tree: &mut Tree) -> Result<(), AllocError>
    ensures { OnOk result (tree.new.items ≡ tree.old.items ++ leaf (node_in style kind) ∷ []) }
{
    tree.reserve(1)?;
    put_reserved(style, kind, tree);
    Ok(())
}

/// Appends a text, copied.
#[inline(always)]
pub fn put_text(contents: &NodeText, tree: &mut Tree) -> Result<(), AllocError>
    ensures { OnOk result (tree.new.items ≡ tree.old.items ++ leaf (without_style (NodeKind.Text contents.now)) ∷ []) }
{
    tree.reserve(1)?;
    let text = contents.clone()?;
    put_reserved(NodeStyle::default(), NodeKind::Text(text), tree);
    Ok(())
}

/// Returns the kind of the last node.
#[inline(always)]
pub fn last_kind(tree: &Tree) -> &NodeKind
    requires { 0 < length tree.now.items }
    ensures { (entries : List (Entry RenderNode)) (e : Entry RenderNode) → tree.now.items ≡ entries ++ e ∷ [] → result.now ≡ e.node.kind }
{
    &tree[tree.len() - 1].node.kind
}

/// Writes the size of the subtree of the node at `start`, to which all entries from there on belong.
#[inline(always)]
pub fn write_size(tree: &mut Tree, start: usize)
    ensures { tree.new.items ≡ take start tree.old.items ++ sized (drop start tree.old.items) }
{
    let len = tree.len();
    if start < len {
        tree[start].subtree_len = len - start;
    }
}

/// Returns the nodes of entries.
///
/// # Errors
///
/// `AllocError` if an allocation is refused.
fn nodes_of(alloc: Global, entries: Vec<Entry<RenderNode>>) -> Result<Vec<RenderNode>, AllocError>
    ensures { IfOk result (λ nodes. nodes.items ≡ map (λ (e : Entry RenderNode). e.node) entries.items) }
{
    let mut nodes = Vec::new(alloc);
    for entry in entries {
        nodes.push(entry.node)?;
    }
    Ok(nodes)
}

/// Replaces the kind of a node.
fn replace_kind(node: &mut RenderNode, kind: NodeKind)
    ensures { node.new ≡ record node.old { kind = kind } }
{
    node.kind = kind;
}

/// Replaces the kind of the node at `start`.
pub fn set_kind(tree: &mut Tree, start: usize, kind: NodeKind)
    ensures { tree.new.items ≡ take start tree.old.items ++ with_kind kind (drop start tree.old.items) }
{
    match tree.get_mut(start) {
        Some(entry) => replace_kind(&mut entry.node, kind),
        None => drop(kind),
    }
}

/// Removes the entries after that at `start`, and returns their nodes.
///
/// # Errors
///
/// `AllocError` if an allocation is refused.
pub fn take_inside(
    alloc: Global,
    tree: &mut Tree,
    start: usize,
) -> Result<Vec<RenderNode>, AllocError>
    ensures nodes { IfOk result (λ nodes. nodes.items ≡ map (λ (e : Entry RenderNode). e.node) (drop (start + 1) tree.old.items)) }
    ensures left { OnOk result (tree.new.items ≡ take (start + 1) tree.old.items) }
{
    if tree.len().saturating_sub(start) < 2 {
        return Ok(Vec::new(alloc));
    }
    let inside = tree.split_off(start + 1)?;
    nodes_of(alloc, inside)
}
