//! Texts and nodes that an open element has still to write.

ghost use Rattle.std.specs.Prelude.{◌≡◌, ◌++◌, IfOk, None, OnOk, Some};
ghost use Rattle.std.specs.Bool.{OnTrue};
ghost use Rattle.html_render_layout_nodes.specs.declared.tree.NodeKind.TheVariants.{FragmentStart};
ghost use Rattle.html_render_tree_convert.specs.Held.{due_of, held_back, held_in, insertion_in, leaves, nothing, nothing_held, text_nodes, within};

use crate::builder::{Tree, put};
use crate::plans::ElementTexts;
use html_render_layout_nodes::text::NodeText;
use html_render_layout_nodes::tree::{NodeKind, RenderNode};
use std::alloc::{AllocError, Global};
use std::marker::Model;

/// Nodes without children that are inserted in front of an element's children and after them.
#[derive(Drop)]
pub struct InsertedNodes {
    /// Nodes in front of the children.
    pub front: Vec<RenderNode>,
    /// Nodes after the children.
    pub back: Vec<RenderNode>,
}

impl InsertedNodes {
    /// Creates an insertion of no nodes.
    pub fn new(alloc: Global) -> InsertedNodes
        ensures { insertion_in result ≡ nothing }
    {
        InsertedNodes {
            front: Vec::new(alloc),
            back: Vec::new(alloc),
        }
    }

    /// Reports whether there are no nodes.
    fn is_empty(&self) -> bool
        ensures { OnTrue result (insertion_in self.now ≡ nothing) }
    {
        self.front.is_empty() && self.back.is_empty()
    }
}

/// What an open element has still to write, and the mark that it leaves if it vanishes.
#[derive(Drop)]
pub struct DueParts {
    /// Name of the mark that it leaves if it vanishes.
    pub mark: Option<NodeText>,
    /// Text of its own after its children.
    pub after: Option<NodeText>,
    /// Insertion into the first cell, or after the children, round that text.
    pub own: InsertedNodes,
    /// Insertion of the table in which it is, to be given back if no row comes.
    pub given: InsertedNodes,
}

impl DueParts {
    /// Takes the element's own insertion. The rest stays.
    fn take_own(&mut self, alloc: Global) -> Result<InsertedNodes, AllocError>
        ensures ok { IfOk result (λ i. insertion_in i ≡ (held_in (Some self.old)).own) }
        ensures left { OnOk result (held_in (Some self.new) ≡ record (held_in (Some self.old)) { own = nothing }) }
    {
        let InsertedNodes {
            front,
            back: mut others,
        } = std::mem::replace(&mut self.own, InsertedNodes::new(alloc));
        let mut back = text_nodes(alloc, self.after.take())?;
        back.append(&mut others)?;
        Ok(InsertedNodes { front, back })
    }
}

/// Memory of what a closed element had to write, for the next one. Nothing is left in it.
#[derive(Drop)]
pub struct Spare {
    parts: Option<Box<DueParts>>,
}

impl Model for Spare {
    ghost use Rattle.std.specs.Prelude.{◌≡◌, option_map};
    ghost use Rattle.html_render_tree_convert.specs.Held.{Held, held_in, nothing_held};

    ghost Value = { Held };

    ghost view = { λ s. held_in (option_map (λ b. b.value) s.parts) };

    ghost invariant = { λ s. held_in (option_map (λ b. b.value) s.parts) ≡ nothing_held };
}

impl Spare {
    /// Returns no memory.
    pub fn none() -> Spare {
        Spare { parts: None }
    }
}

/// What an open element has still to write, boxed since most elements insert nothing.
#[derive(Drop)]
pub struct Due {
    parts: Option<Box<DueParts>>,
}

impl Model for Due {
    ghost use Rattle.std.specs.Prelude.{option_map};
    ghost use Rattle.html_render_tree_convert.specs.Held.{Held, held_in};

    ghost Value = { Held };

    ghost view = { λ d. held_in (option_map (λ b. b.value) d.parts) };
}

impl Due {
    /// Returns what an element has to write that inserts nothing.
    #[inline]
    pub fn none() -> Due
        ensures { result ≡ nothing_held }
    {
        Due { parts: None }
    }

    /// Reports whether it was created as nothing.
    #[inline]
    pub fn is_none(&self) -> bool
        ensures { OnTrue result (self.now ≡ nothing_held) }
    {
        self.parts.is_none()
    }

    /// Creates what an element has still to write. Where that is nothing, nothing is allocated.
    pub fn new(alloc: Global, parts: DueParts) -> Result<Due, AllocError>
        ensures { IfOk result (λ d. d ≡ held_in (Some parts)) }
    {
        if parts.mark.is_none()
            && parts.after.is_none()
            && parts.own.is_empty()
            && parts.given.is_empty()
        {
            return Ok(Due::none());
        }
        let parts = Box::new(alloc, parts)?;
        Ok(Due { parts: Some(parts) })
    }

    /// Creates what an element has still to write that leaves this mark if it vanishes, and writes this text after its children.
    /// It is in the memory of a closed element if there is any.
    pub fn held_back(
        alloc: Global,
        mark: Option<NodeText>,
        after: Option<NodeText>,
        spare: &mut Spare,
    ) -> Result<Due, AllocError>
        ensures { IfOk result (λ d. d ≡ held_back mark (text_nodes NodeKind.Text after)) }
    {
        if let Some(mut parts) = spare.parts.take() {
            parts.mark = mark;
            parts.after = after;
            return Ok(Due { parts: Some(parts) });
        }
        let parts = DueParts {
            mark,
            after,
            own: InsertedNodes::new(alloc),
            given: InsertedNodes::new(alloc),
        };
        Due::new(alloc, parts)
    }

    /// Creates what rows or a row have still to write in their first cell: their own texts, and an insertion round these.
    pub fn carried(
        alloc: Global,
        texts: ElementTexts,
        outer: InsertedNodes,
        given: InsertedNodes,
    ) -> Result<Due, AllocError>
        ensures { IfOk result (λ d. d ≡ record {
          mark = texts.mark;
          own = within (insertion_in outer) (record {
            front = text_nodes FragmentStart texts.mark ++ text_nodes NodeKind.Text texts.before;
            back = text_nodes NodeKind.Text texts.after;
          });
          given = insertion_in given;
        }) }
    {
        let ElementTexts {
            mark,
            before,
            after,
        } = texts;
        let InsertedNodes { mut front, back } = outer;
        if let Some(name) = &mark {
            front.push(RenderNode::from(NodeKind::FragmentStart(name.clone()?)))?;
        }
        if let Some(text) = before {
            front.push(RenderNode::from(NodeKind::Text(text)))?;
        }
        let own = InsertedNodes { front, back };
        Due::new(
            alloc,
            DueParts {
                mark,
                after,
                own,
                given,
            },
        )
    }

    /// Returns the mark that the element leaves if it vanishes.
    pub fn into_mark(self) -> Option<NodeText>
        ensures { result ≡ self.mark }
    {
        let parts = self.parts?;
        Box::into_inner(parts).mark
    }

    /// Takes what is due. The mark stays.
    pub fn take(&mut self, alloc: Global) -> Result<InsertedNodes, AllocError>
        ensures ok { IfOk result (λ i. insertion_in i ≡ due_of self.old) }
        ensures left { OnOk result (self.new ≡ record nothing_held { mark = self.old.mark }) }
    {
        let InsertedNodes {
            mut front,
            back: mut given_back,
        } = self.take_given(alloc);
        let InsertedNodes {
            front: mut own_front,
            mut back,
        } = self.take_own(alloc)?;
        front.append(&mut own_front)?;
        back.append(&mut given_back)?;
        Ok(InsertedNodes { front, back })
    }

    /// Takes the element's own insertion. The rest stays.
    pub fn take_own(&mut self, alloc: Global) -> Result<InsertedNodes, AllocError>
        ensures ok { IfOk result (λ i. insertion_in i ≡ self.old.own) }
        ensures left { OnOk result (self.new ≡ record self.old { own = nothing }) }
    {
        match &mut self.parts {
            Some(parts) => parts.take_own(alloc),
            None => Ok(InsertedNodes::new(alloc)),
        }
    }

    /// Takes the insertion of its table. The rest stays.
    #[inline(never)]
    pub fn take_given(&mut self, alloc: Global) -> InsertedNodes
        ensures given { insertion_in result ≡ self.old.given }
        ensures left { self.new ≡ record self.old { given = nothing } }
    {
        match &mut self.parts {
            Some(parts) => std::mem::replace(&mut parts.given, InsertedNodes::new(alloc)),
            None => InsertedNodes::new(alloc),
        }
    }

    /// Replaces the element's own insertion. The rest stays.
    #[inline(never)]
    pub fn set_own(&mut self, alloc: Global, own: InsertedNodes) -> Result<(), AllocError>
        ensures { OnOk result (self.new ≡ record self.old { own = insertion_in own }) }
    {
        match &mut self.parts {
            Some(parts) => {
                parts.after = None;
                parts.own = own;
            }
            None if own.is_empty() => {}
            None => {
                let parts = DueParts {
                    mark: None,
                    after: None,
                    own,
                    given: InsertedNodes::new(alloc),
                };
                *self = Due::new(alloc, parts)?;
            }
        }
        Ok(())
    }

    /// Writes what is due after the children of an element that closes. Its memory becomes the spare one if nothing is left in it.
    #[inline(never)]
    pub fn write_back(self, tree: &mut Tree, spare: &mut Spare) -> Result<(), AllocError>
        ensures { OnOk result (tree.new.items ≡ tree.old.items ++ leaves self.own.back) }
    {
        let Some(mut parts) = self.parts else {
            return Ok(());
        };
        if let Some(text) = parts.after.take() {
            put(RenderNode::from(NodeKind::Text(text)), tree)?;
        }
        if parts.own.is_empty() && parts.given.is_empty() {
            parts.mark = None;
            spare.parts = Some(parts);
            return Ok(());
        }
        let DueParts { own, .. } = Box::into_inner(parts);
        put_all(own.back, tree)
    }
}

/// Returns a text as a node, if there is one.
fn text_nodes(alloc: Global, text: Option<NodeText>) -> Result<Vec<RenderNode>, AllocError>
    ensures { IfOk result (λ nodes. nodes.items ≡ text_nodes NodeKind.Text text) }
{
    let mut nodes = Vec::new(alloc);
    if let Some(text) = text {
        nodes.push(RenderNode::from(NodeKind::Text(text)))?;
    }
    Ok(nodes)
}

/// Writes the texts in front of an element's children: its mark, and its content.
pub fn put_texts(
    mark: Option<NodeText>,
    before: Option<NodeText>,
    tree: &mut Tree,
) -> Result<(), AllocError>
    ensures { OnOk result (tree.new.items ≡ tree.old.items ++ leaves (text_nodes FragmentStart mark ++ text_nodes NodeKind.Text before)) }
{
    if let Some(name) = mark {
        put(RenderNode::from(NodeKind::FragmentStart(name)), tree)?;
    }
    if let Some(text) = before {
        put(RenderNode::from(NodeKind::Text(text)), tree)?;
    }
    Ok(())
}

/// Appends nodes without children.
#[inline(never)]
pub fn put_all(nodes: Vec<RenderNode>, tree: &mut Tree) -> Result<(), AllocError>
    ensures { OnOk result (tree.new.items ≡ tree.old.items ++ leaves nodes.items) }
{
    for node in nodes {
        put(node, tree)?;
    }
    Ok(())
}
