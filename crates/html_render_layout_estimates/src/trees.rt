//! Trees beside each other in a slice of nodes in pre-order.

ghost use Rattle.std.specs.Prelude.{◌≡◌, ◌<◌, length, IfSome, MatchOption};
ghost use Rattle.html_render_dom_values.specs.Forest.{none, node};
ghost use Rattle.html_render_layout_nodes.specs.Preorder.{flatten, forest_of};

use html_render_layout_nodes::tree::Entry;

/// First of the trees in a slice, split into its parts.
#[derive(Clone, Copy)]
pub struct FirstTree<'a, N> {
    /// Root of the tree.
    pub node: &'a N,
    /// Nodes below the root, in pre-order.
    pub below: &'a [Entry<N>],
    /// Trees that follow this one.
    pub beside: &'a [Entry<N>],
}

/// Splits the first tree off a slice; `None` if the slice is empty.
#[inline]
pub fn first_tree<N>(trees: &[Entry<N>]) -> Option<FirstTree<'_, N>>
    requires { flatten (forest_of trees.now) ≡ trees.now }
    ensures cases { MatchOption result (forest_of trees.now ≡ none)
        (λ t. forest_of trees.now ≡ node t.node.now (forest_of t.below.now) (forest_of t.beside.now)) }
    ensures below { IfSome result (λ t. flatten (forest_of t.below.now) ≡ t.below.now) }
    ensures beside { IfSome result (λ t. flatten (forest_of t.beside.now) ≡ t.beside.now) }
    ensures fewer { IfSome result (λ t. length t.beside.now < length trees.now) }
{
    let (entry, nodes) = trees.split_first()?;
    let (below, beside) = nodes.split_at(entry.subtree_len - 1);
    Some(FirstTree {
        node: &entry.node,
        below,
        beside,
    })
}
