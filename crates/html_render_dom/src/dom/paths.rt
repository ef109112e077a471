//! Elements by their positions among their siblings: `dom.get_node_by_path(&[1, 2])` is the second element child of the
//! document's first element child.

ghost use Rattle.std.specs.Prelude.{◌≡◌, IfSome};
ghost use Rattle.html_render_dom.specs.Dom.{IsNode};
ghost use Rattle.html_render_dom.specs.Paths.{nth_child, node_by_path};

use super::documents::RcDom;
use html_render_dom_nodes::Handle;

impl RcDom {
    /// Returns the `index`th of the node's children that are elements, counted from 1.
    ///
    /// Returns `None` if `index` is 0, or greater than their number.
    pub fn nth_child(&self, node: Handle, index: usize) -> Option<Handle>
        requires { IsNode self.now node }
        ensures child { result ≡ nth_child self.now node index }
        ensures is_node { IfSome result (IsNode self.now) }
    {
        let mut passed = index.checked_sub(1)?;
        for child in self.child_list(node) {
            if self.is_element(*child) {
                if passed == 0 {
                    return Some(*child);
                }
                passed -= 1;
            }
        }
        None
    }

    /// Returns the node at the end of a path from the document node; `None` if a step of the path leads nowhere.
    ///
    /// Each number is the `index` of one step, as in [`nth_child`](RcDom::nth_child). The empty path leads to the document.
    pub fn get_node_by_path(&self, path: &[usize]) -> Option<Handle>
        ensures node { result ≡ node_by_path self.now 0 path.now }
        ensures is_node { IfSome result (IsNode self.now) }
    {
        let mut node = self.get_document();
        for index in path {
            node = self.nth_child(node, *index)?;
        }
        Some(node)
    }
}
