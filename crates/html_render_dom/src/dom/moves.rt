//! Calls that move nodes between lists of children. Each makes its allocations before it changes anything, so a refused call
//! leaves the document unchanged.

ghost use Rattle.std.specs.Prelude.{◌≡◌, IfSome, IsSome};
ghost use Rattle.html_render_dom.specs.Dom.{IsNode, IsInclusiveAncestor, node_count, parent_at};
ghost use Rattle.html_render_dom.specs.Edits.{Edits};
ghost use Rattle.html_render_dom.specs.Moves.{CanAppendBefore, CanPutByParent, appended_before, put_by_parent};
ghost use Rattle.html_render_dom_nodes.specs.Moves.{reparented, taken_out, text_before};

use super::documents::RcDom;
use html_render_dom_nodes::{Handle, NodeData, NodeOrText, lists};
use html_render_dom_values::Error;
use std::alloc::Global;

impl RcDom {
    /// Removes the node from its parent's list of children. Does nothing if it has no parent.
    pub fn remove_from_parent(&mut self, node: Handle)
        requires { IsNode self.old node }
        ensures removed { self.new
            ≡ record self.old { nodes = taken_out self.old.nodes (parent_at self.old node) node } }
        ensures count { node_count self.new ≡ node_count self.old }
    {
        if let Some(parent) = self.get_parent(node) {
            lists::take_out(&mut self.nodes, parent, node);
        }
    }

    /// Inserts a node or a text directly before the sibling, which must have a parent.
    ///
    /// A text is joined to the text node directly before the sibling. If there is none, it becomes a text node with the next
    /// number. A node is first removed from its old list; it may be an earlier child of the same parent. It must not be an
    /// inclusive ancestor of the sibling.
    ///
    /// # Errors
    ///
    /// Returns `OutOfMemory` if an allocation is refused. The document is then unchanged, and a text that was passed in is
    /// dropped.
    pub fn append_before_sibling(
        &mut self,
        alloc: Global,
        sibling: Handle,
        child: NodeOrText,
    ) -> Result<(), Error>
        requires sibling { IsSome (parent_at self.old sibling) }
        requires child { CanAppendBefore self.old sibling child }
        ensures { Edits result self.old (appended_before self.old sibling child) self.new }
    {
        let Some(parent) = self.get_parent(sibling) else {
            unreachable!();
        };
        match child {
            NodeOrText::AppendNode(child) => {
                let from = self.get_parent(child);
                Ok(lists::move_before(&mut self.nodes, from, parent, sibling, child)?)
            }
            NodeOrText::AppendText(text) => {
                let last = self.text_before(parent, sibling);
                Ok(lists::put_text_before(alloc, &mut self.nodes, parent, sibling, last, text)?)
            }
        }
    }

    /// Returns the node directly before the sibling if it is a text node, and `None` otherwise.
    fn text_before(&self, parent: Handle, sibling: Handle) -> Option<Handle>
        requires { IsNode self.now parent }
        ensures text { result ≡ text_before self.now.nodes parent sibling }
        ensures is_node { IfSome result (IsNode self.now) }
    {
        let previous = lists::previous(self.child_list(parent), sibling)?;
        matches!(self.data(previous), NodeData::Text { .. }).then_some(previous)
    }

    /// Inserts a node or a text before `element`, or appends it to `prev_element`.
    ///
    /// If `element` has a parent, the call is [`append_before_sibling`](RcDom::append_before_sibling) with `element` as the
    /// sibling. Otherwise it is [`append`](RcDom::append) with `prev_element` as the parent. The conditions are those of
    /// that call.
    ///
    /// # Errors
    ///
    /// Returns `OutOfMemory` if an allocation is refused. The document is then unchanged, and a text that was passed in is
    /// dropped.
    pub fn append_based_on_parent_node(
        &mut self,
        alloc: Global,
        element: Handle,
        prev_element: Handle,
        child: NodeOrText,
    ) -> Result<(), Error>
        requires element { IsNode self.old element }
        requires child { CanPutByParent self.old (parent_at self.old element) element prev_element child }
        ensures { Edits result self.old
            (put_by_parent self.old (parent_at self.old element) element prev_element child) self.new }
    {
        match self.get_parent(element) {
            Some(_) => self.append_before_sibling(alloc, element, child),
            None => self.append(alloc, prev_element, child),
        }
    }

    /// Moves all children of `node`, in order, to the end of the children of `new_parent`.
    ///
    /// `node` must not be an inclusive ancestor of `new_parent`. Texts aren't joined.
    ///
    /// # Errors
    ///
    /// Returns `OutOfMemory` if an allocation is refused. The document is then unchanged.
    pub fn reparent_children(
        &mut self,
        alloc: Global,
        node: Handle,
        new_parent: Handle,
    ) -> Result<(), Error>
        requires node { IsNode self.old node }
        requires new_parent { IsNode self.old new_parent }
        requires away { ¬ IsInclusiveAncestor self.old node new_parent }
        ensures { Edits result self.old (record self.old { nodes = reparented self.old.nodes node new_parent }) self.new }
    {
        lists::move_children(alloc, &mut self.nodes, node, new_parent)?;
        Ok(())
    }
}
