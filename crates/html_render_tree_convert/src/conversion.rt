//! The conversion of a document in one forward pass: what each event of a walk does to the open elements.

ghost use Rattle.std.specs.Prelude.{◌≡◌, [], ◌∷◌, IfErr, IfOk, OnOk, Some};
ghost use Rattle.html_render_layout_nodes.specs.RenderNodes.{without_style};
ghost use Rattle.html_render_parts.specs.Refusal.{Builds};
ghost use Rattle.html_render_tree_convert.specs.Held.{leaf};
ghost use Rattle.html_render_tree_convert.specs.OpenElements.{root};
ghost use Rattle.html_render_tree_convert.specs.Steps.{all_written, begun_with, closed_leaf, come, node_in, put};

use crate::builder::{Tree, last_kind, put, put_kind, put_text};
use crate::due::{Due, Spare};
use crate::elements::{Open, OpenKind};
use crate::mapping::IfEmpty;
use html_render_dom_values::Error;
use html_render_layout_nodes::text::NodeText;
use html_render_layout_nodes::tree::{Entry, NodeKind, NodeStyle, RenderNode};
use std::alloc::{AllocError, Global};
use std::marker::Model;

mod closing;
mod opening;

/// Writes a node without children in an open element.
#[inline(always)]
fn put_in(node: RenderNode, parent: &mut Open, tree: &mut Tree) -> Result<(), AllocError>
    ensures { OnOk result (record { element = parent.new; tree = tree.new.items }
        ≡ come (Some (closed_leaf node)) (record { element = parent.old; tree = tree.old.items })) }
{
    if parent.receive_contents(&node.kind, false, false) {
        put(node, tree)?;
    }
    Ok(())
}

/// Writes a copy of a text in an open element. The copy is made where it is to stay, and removed if the element doesn't keep it.
#[inline(always)]
fn put_text_in(contents: &NodeText, parent: &mut Open, tree: &mut Tree) -> Result<(), AllocError>
    ensures { OnOk result (record { element = parent.new; tree = tree.new.items }
        ≡ come (Some (closed_leaf (without_style (NodeKind.Text contents.now)))) (record { element = parent.old; tree = tree.old.items })) }
{
    put_text(contents, tree)?;
    if !parent.receive_contents(last_kind(tree), false, false) {
        drop(tree.pop());
    }
    Ok(())
}

/// A document whose nodes are being converted. Contracts see the innermost open element, those outside it, and the nodes that are
/// written. After an error these may be any.
#[derive(Drop)]
pub struct Conversion {
    innermost: Open,
    outer: Vec<Open>,
    tree: Tree,
    // memory of what a closed element had to write, for the next one
    spare: Spare,
}

impl Model for Conversion {
    ghost use Rattle.std.specs.Prelude.{reverse};
    ghost use Rattle.html_render_tree_convert.specs.OpenElements.{State};

    ghost Value = { State };

    ghost view = { λ c. record { element = c.innermost; outer = reverse c.outer.items; tree = c.tree.items } };
}

impl Conversion {
    /// Creates a conversion before its first event, with room for `nodes` nodes.
    pub fn new(alloc: Global, nodes: usize) -> Result<Conversion, AllocError>
        ensures { IfOk result (λ c. c ≡ root) }
    {
        Ok(Conversion {
            innermost: Open::new(OpenKind::Root, Due::none(), IfEmpty::Stands, false),
            outer: Vec::new(alloc),
            tree: Tree::with_capacity(alloc, nodes)?,
            spare: Spare::none(),
        })
    }

    /// Returns the allocator.
    pub fn allocator(&self) -> Global {
        *self.outer.allocator()
    }

    /// Writes a node without children.
    #[inline(always)]
    pub fn put(&mut self, node: RenderNode) -> Result<(), AllocError>
        ensures { OnOk result (self.new ≡ put node self.old) }
    {
        put_in(node, &mut self.innermost, &mut self.tree)
    }

    /// Writes a copy of a text.
    #[inline(always)]
    pub fn put_text(&mut self, contents: &NodeText) -> Result<(), AllocError>
        ensures { OnOk result (self.new ≡ put (without_style (NodeKind.Text contents.now)) self.old) }
    {
        put_text_in(contents, &mut self.innermost, &mut self.tree)
    }

    /// Opens an element with a node of its own.
    #[inline(always)]
    fn begin(&mut self, element: Open, node: RenderNode) -> Result<(), AllocError>
        ensures { OnOk result (self.new ≡ begun_with element (leaf node ∷ []) self.old) }
    {
        self.begin_part(element)?;
        put(node, &mut self.tree)
    }

    /// Opens an element with an unmeasured node of its own.
    #[inline(always)]
    fn begin_kind(
        &mut self,
        element: Open,
        style: NodeStyle,
        kind: NodeKind,
    ) -> Result<(), AllocError>
        ensures { OnOk result (self.new ≡ begun_with element (leaf (node_in style kind) ∷ []) self.old) }
    {
        self.begin_part(element)?;
        put_kind(style, kind, &mut self.tree)
    }

    /// Opens an element without a node of its own.
    #[inline(always)]
    fn begin_part(&mut self, mut element: Open) -> Result<(), AllocError>
        ensures { OnOk result (self.new ≡ begun_with element [] self.old) }
    {
        element.start = self.tree.len();
        self.outer.reserve(1)?;
        let parent = std::mem::replace(&mut self.innermost, element);
        self.outer.push_reserved(parent);
        Ok(())
    }

    /// Returns the nodes that are written, in pre-order.
    ///
    /// # Errors
    ///
    /// `Fail` exactly if a part of a table is among them that is in no table.
    pub fn into_entries(self) -> Result<Vec<Entry<RenderNode>>, Error>
        ensures { Builds result (all_written self) (λ entries. entries.items) }
    {
        if self.innermost.is_stray {
            return Err(Error::Fail);
        }
        Ok(self.tree)
    }
}
