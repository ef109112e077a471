//! A walk over a document: each node, and where the children of an element end, one after another.

ghost use Rattle.std.specs.Prelude.{◌≡◌, ◌∷◌, [], All, IfNone, IfSome, MatchOption, OnOk};
ghost use Rattle.html_render_dom_nodes.specs.Content.{content_of};
ghost use Rattle.html_render_dom.specs.Dom.{IsNode};
ghost use Rattle.html_render_tree_walk.specs.Walk.{IsVisited, ahead, coming, coming_at, entered, is_named, picks};

use html_render_dom::dom::{Handle, Namespace, NodeData, RcDom};
use html_render_dom_nodes::is_same_name;
use std::alloc::{AllocError, Global};
use std::marker::Model;

/// Children of an element: all, or of a table some.
#[derive(Clone, Copy)]
pub enum Pick {
    /// All children, in order.
    All,
    /// The captions of a table; then `Others`.
    Captions,
    /// The children of a table that are neither captions nor feet; then `Feet`.
    Others,
    /// The feet of a table.
    Feet,
}

/// What comes next on a walk.
#[derive(Clone, Copy)]
pub enum Visit {
    /// A node. Its children come next if the walk enters it.
    Node(Handle),
    /// The captions of the innermost table have all come.
    Parts,
    /// The children of the innermost element have all come.
    Close,
}

/// An element that the walk has entered, and which of its children come next.
#[derive(Clone, Copy)]
pub struct Position {
    /// The element.
    pub element: Handle,
    /// Which of its children come now.
    pub pick: Pick,
    /// Index of the first child that hasn't come.
    pub next: usize,
}

/// Reports whether a node is an element of HTML of this name.
fn is_named(name: &str, node: &NodeData) -> bool
    ensures { result ≡ is_named name.now (content_of node.now) }
{
    match node {
        NodeData::Element { name: own, .. } => match own.ns {
            Namespace::Html => is_same_name(own.local.as_str(), name),
            _ => false,
        },
        _ => false,
    }
}

/// Reports whether a child is picked.
#[inline(always)]
fn picks(pick: Pick, node: &NodeData) -> bool
    ensures { result ≡ picks pick (content_of node.now) }
{
    match pick {
        Pick::All => true,
        Pick::Captions => is_named("caption", node),
        Pick::Others => !is_named("caption", node) && !is_named("tfoot", node),
        Pick::Feet => is_named("tfoot", node),
    }
}

/// Returns the next child that is picked, and moves the position past it; `None` without one.
#[inline(always)]
fn next_picked(dom: &RcDom, position: &mut Position) -> Option<Handle>
    requires { IsNode dom.now position.old.element }
    ensures none { IfNone result (ahead dom.now position.old ≡ []) }
    ensures some { IfSome result (λ child. ahead dom.now position.old ≡ child ∷ ahead dom.now position.new) }
    ensures element { position.new.element ≡ position.old.element }
    ensures pick { position.new.pick ≡ position.old.pick }
    ensures node { IfSome result (λ child. IsNode dom.now child) }
{
    let children = dom.child_list(position.element);
    let pick = position.pick;
    let mut next = position.next;
    'children: while next < children.len() {
        let child = children[next];
        next += 1;
        if picks(pick, dom.data(child)) {
            position.next = next;
            return Some(child);
        }
    }
    None
}

/// Moves a position in front of the children of a pick.
fn restart(position: &mut Position, pick: Pick)
    ensures { position.new ≡ entered position.old.element pick }
{
    position.pick = pick;
    position.next = 0;
}

/// Returns what comes next at a position, and moves the position past it; `None` where the element ends.
#[inline(always)]
fn advance(dom: &RcDom, position: &mut Position) -> Option<Visit>
    requires { IsNode dom.now position.old.element }
    ensures some { IfSome result (λ visit. coming_at dom.now position.old ≡ visit ∷ coming_at dom.now position.new) }
    ensures none { IfNone result (coming_at dom.now position.old ≡ Visit.Close ∷ []) }
    ensures element { position.new.element ≡ position.old.element }
    ensures node { IfSome result (IsVisited dom.now) }
{
    if let Some(child) = next_picked(dom, position) {
        return Some(Visit::Node(child));
    }
    match position.pick {
        Pick::All | Pick::Feet => None,
        Pick::Captions => {
            restart(position, Pick::Others);
            Some(Visit::Parts)
        }
        Pick::Others => {
            restart(position, Pick::Feet);
            let child = next_picked(dom, position)?;
            Some(Visit::Node(child))
        }
    }
}

/// A walk over a document. Contracts see the elements that it has entered, the innermost first.
#[derive(Drop)]
pub struct Cursor {
    open: Vec<Position>,
}

impl Model for Cursor {
    ghost use Rattle.std.specs.Prelude.{List, reverse};
    ghost use Rattle.html_render_tree_walk.specs.declared.cursor.Position.{Position};

    ghost Value = { List Position };

    ghost view = { λ c. reverse c.open.items };
}

impl Cursor {
    /// Creates a cursor that has entered no element.
    pub fn new(alloc: Global) -> Cursor
        ensures { result ≡ [] }
    {
        Cursor {
            open: Vec::new(alloc),
        }
    }

    /// Enters an element: its children come next, of a table first those of `pick`.
    #[inline(always)]
    pub fn enter(&mut self, element: Handle, pick: Pick) -> Result<(), AllocError>
        ensures { OnOk result (self.new ≡ entered element pick ∷ self.old) }
    {
        self.open.reserve(1)?;
        self.open.push_reserved(Position {
            element,
            pick,
            next: 0,
        });
        Ok(())
    }

    /// Returns what comes next; `None` at the end.
    #[inline(always)]
    pub fn next(&mut self, dom: &RcDom) -> Option<Visit>
        requires { All (λ p. IsNode dom.now p.element) self.now }
        ensures visit { MatchOption result (coming dom.now self.old ≡ []) (λ v. coming dom.now self.old ≡ v ∷ coming dom.now self.new) }
        ensures nodes { All (λ p. IsNode dom.now p.element) self.new }
        ensures node { IfSome result (IsVisited dom.now) }
    {
        let position = self.open.last_mut()?;
        if let Some(visit) = advance(dom, position) {
            return Some(visit);
        }
        self.open.pop();
        Some(Visit::Close)
    }
}
