//! Copies of a render tree.

ghost use Rattle.std.specs.Prelude.{◌≡◌, IfOk};
ghost use Rattle.html_render_dom_values.specs.Outcome.{OnlyOutOfMemory};

use super::{Entry, PreorderForest, RenderNode, RenderTree};
use html_render_dom_values::Error;
use std::alloc::{AllocError, Global};

impl RenderNode {
    /// Returns a copy of the node.
    pub fn try_clone(&self, alloc: Global) -> Result<RenderNode, AllocError>
        ensures { IfOk result (λ node. node ≡ self.now) }
    {
        Ok(RenderNode {
            kind: self.kind.try_clone(alloc)?,
            style: self.style,
            estimate: self.estimate,
        })
    }
}

/// Returns a copy of an entry.
fn copy_of(alloc: Global, entry: &Entry<RenderNode>) -> Result<Entry<RenderNode>, AllocError>
    ensures { IfOk result (λ copy. copy ≡ entry.now) }
{
    let node = entry.node.try_clone(alloc)?;
    Ok(Entry {
        node,
        subtree_len: entry.subtree_len,
    })
}

/// Returns copies of the entries, in order.
fn copies_of(
    alloc: Global,
    entries: &[Entry<RenderNode>],
) -> Result<Vec<Entry<RenderNode>>, AllocError>
    ensures { IfOk result (λ copies. copies.items ≡ entries.now) }
{
    let mut copies = Vec::with_capacity(alloc, entries.len())?;
    for entry in entries {
        let copy = copy_of(alloc, entry)?;
        copies.push(copy)?;
    }
    Ok(copies)
}

impl RenderTree {
    /// Returns a copy of the tree. Copies node by node in pre-order, without recursion.
    ///
    /// # Errors
    ///
    /// `OutOfMemory` if an allocation is refused.
    #[tactic(auto, using(crate::proofs::Copies::copied))]
    pub fn try_clone(&self, alloc: Global) -> Result<RenderTree, Error>
        ensures ok { IfOk result (λ tree. tree ≡ self.now) }
        ensures err { OnlyOutOfMemory result }
    {
        let entries = copies_of(alloc, self.nodes.entries())?;
        Ok(RenderTree::new(PreorderForest::from_entries(entries)))
    }
}
