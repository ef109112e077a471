//! Elements that close: what is written of them, and what their parents keep.

ghost use Rattle.std.specs.Prelude.{◌≡◌, ◌++◌, IfErr, OnOk, Some, drop, option_map, take};
ghost use Rattle.html_render_parts.specs.Refusal.{Makes};
ghost use Rattle.html_render_tree_convert.specs.Steps.{closed, closed_as, closed_in, closed_node, closed_once, come, given_back, mark_left, on_grid, role_left, with_back};

use super::{Conversion, put_in};
use crate::builder::{Tree, set_kind, write_size};
use crate::due::{Due, Spare};
use crate::elements::{Open, OpenKind, Role};
use crate::spans::grid_of;
use html_render_dom_values::Error;
use html_render_layout_nodes::tree::{NodeKind, RenderNode};
use html_render_parts::table::spans::RowCells;
use std::alloc::{AllocError, Global};

impl Conversion {
    /// Closes the innermost open element, and a container round it.
    ///
    /// # Errors
    ///
    /// `Fail` exactly if it is a table and a cell ends after column or row `u128::MAX`, and `OutOfMemory` if an allocation is
    /// refused.
    #[inline(always)]
    pub fn close(&mut self, alloc: Global) -> Result<(), Error>
        ensures { Makes result (closed self.old) self.new }
    {
        let is_wrapped = self.innermost.is_wrapped;
        self.close_once(alloc)?;
        if is_wrapped {
            return self.close_any(alloc);
        }
        Ok(())
    }

    /// Closes the innermost open element. Rows, cells and nodes that write nothing after their children, which most elements are,
    /// aren't moved.
    ///
    /// # Errors
    ///
    /// `Fail` exactly if it is a table and a cell ends after column or row `u128::MAX`, and `OutOfMemory` if an allocation is
    /// refused.
    #[inline(always)]
    fn close_once(&mut self, alloc: Global) -> Result<(), Error>
        ensures { Makes result (closed_once self.old) self.new }
    {
        if !self.innermost.due.is_none() || self.innermost.vanishes() {
            return self.close_any(alloc);
        }
        let start = self.innermost.start;
        let has_children = self.innermost.has_children;
        let is_stray = self.innermost.is_stray;
        match &mut self.innermost.kind {
            OpenKind::Cell(span) => {
                let role = Role::Cell(*span);
                let Some(parent) = self.outer.pop() else {
                    return Ok(());
                };
                self.innermost = parent;
                let parent = &mut self.innermost;
                Ok(close_node(role, has_children, is_stray, start, parent, &mut self.tree)?)
            }
            OpenKind::Node(_) => {
                let Some(parent) = self.outer.pop() else {
                    return Ok(());
                };
                self.innermost = parent;
                let parent = &mut self.innermost;
                close_contents(has_children, is_stray, start, parent, &mut self.tree);
                Ok(())
            }
            OpenKind::Row(cells) => {
                let Some(parent) = self.outer.pop() else {
                    return Ok(());
                };
                let role = Role::Row(std::mem::replace(cells, RowCells::new(alloc)));
                self.innermost = parent;
                let parent = &mut self.innermost;
                Ok(close_node(role, has_children, is_stray, start, parent, &mut self.tree)?)
            }
            _ => self.close_any(alloc),
        }
    }

    /// Closes the innermost open element.
    ///
    /// # Errors
    ///
    /// `Fail` exactly if it is a table and a cell ends after column or row `u128::MAX`, and `OutOfMemory` if an allocation is
    /// refused.
    #[inline(never)]
    fn close_any(&mut self, alloc: Global) -> Result<(), Error>
        ensures { Makes result (closed_once self.old) self.new }
    {
        let Some(parent) = self.outer.pop() else {
            return Ok(());
        };
        let element = std::mem::replace(&mut self.innermost, parent);
        close_in(
            alloc,
            element,
            &mut self.innermost,
            &mut self.tree,
            &mut self.spare,
        )
    }
}

/// Closes an element in its parent.
///
/// # Errors
///
/// `Fail` exactly if it is a table and a cell ends after column or row `u128::MAX`, and `OutOfMemory` if an allocation is
/// refused.
#[inline(always)]
fn close_in(
    alloc: Global,
    element: Open,
    parent: &mut Open,
    tree: &mut Tree,
    spare: &mut Spare,
) -> Result<(), Error>
    ensures { Makes result (closed_in element (record { element = parent.old; tree = tree.old.items }))
        (record { element = parent.new; tree = tree.new.items }) }
{
    // most elements become nodes that have no role in a table
    if !matches!(element.kind, OpenKind::Node(_)) {
        return close_part(alloc, element, parent, tree, spare);
    }
    if element.vanishes() {
        return Ok(vanish(element, parent, tree)?);
    }
    write_due(element.due, element.start, tree, spare)?;
    close_contents(
        element.has_children,
        element.is_stray,
        element.start,
        parent,
        tree,
    );
    Ok(())
}

/// Closes a table, a part of one, or any other element in its parent.
///
/// # Errors
///
/// `Fail` exactly if it is a table and a cell ends after column or row `u128::MAX`, and `OutOfMemory` if an allocation is
/// refused.
#[inline(never)]
fn close_part(
    alloc: Global,
    mut element: Open,
    parent: &mut Open,
    tree: &mut Tree,
    spare: &mut Spare,
) -> Result<(), Error>
    ensures { Makes result (closed_in element (record { element = parent.old; tree = tree.old.items }))
        (record { element = parent.new; tree = tree.new.items }) }
{
    give_back(alloc, &mut element, parent)?;
    set_grid(alloc, &element.kind, element.start, tree)?;
    if element.vanishes() {
        return Ok(vanish(element, parent, tree)?);
    }
    Ok(close_standing(element, parent, tree, spare)?)
}

/// Gives its insertion back to a table of which a part had no row.
#[inline(always)]
fn give_back(alloc: Global, element: &mut Open, parent: &mut Open) -> Result<(), AllocError>
    ensures parent { OnOk result (parent.new ≡ given_back element.old parent.old) }
    ensures element { OnOk result (element.new ≡ record element.old { due = element.new.due }) }
    ensures due { OnOk result (element.new.due ≡ record element.old.due { given = element.new.due.given }) }
{
    if let (OpenKind::Rows(_), OpenKind::Parts(_)) = (&element.kind, &parent.kind) {
        let given = element.due.take_given(alloc);
        parent.due.set_own(alloc, given)?;
    }
    Ok(())
}

/// Writes the grid of a table into its node, which is at `start`.
///
/// # Errors
///
/// `Fail` exactly if it is a table and a cell ends after column or row `u128::MAX`, and `OutOfMemory` if an allocation is
/// refused.
#[inline(always)]
fn set_grid(alloc: Global, kind: &OpenKind, start: usize, tree: &mut Tree) -> Result<(), Error>
    ensures own { Makes result (on_grid kind.now (drop start tree.old.items)) (drop start tree.new.items) }
    ensures below { OnOk result (take start tree.new.items ≡ take start tree.old.items) }
{
    if let OpenKind::Parts(spans) = kind {
        let grid = grid_of(alloc, spans)?;
        set_kind(tree, start, NodeKind::Table(grid));
    }
    Ok(())
}

/// Removes the nodes of an element that vanishes, and puts its mark, if it has one.
#[inline(never)]
fn vanish(element: Open, parent: &mut Open, tree: &mut Tree) -> Result<(), AllocError>
    ensures { OnOk result (record { element = parent.new; tree = tree.new.items }
        ≡ come (mark_left element.due.mark) (record { element = parent.old; tree = take element.start tree.old.items })) }
{
    tree.truncate(element.start);
    match element.due.into_mark() {
        Some(name) => put_in(
            RenderNode::from(NodeKind::FragmentStart(name)),
            parent,
            tree,
        ),
        None => Ok(()),
    }
}

/// Closes an element that doesn't vanish.
fn close_standing(
    element: Open,
    parent: &mut Open,
    tree: &mut Tree,
    spare: &mut Spare,
) -> Result<(), AllocError>
    ensures { OnOk result (record { element = parent.new; tree = tree.new.items }
        ≡ come (closed_as element.kind element (drop element.start tree.old.items))
        (record { element = parent.old; tree = take element.start tree.old.items })) }
{
    let Open {
        kind,
        due,
        start,
        if_empty: _,
        has_results: _,
        has_children,
        is_wrapped: _,
        is_stray,
    } = element;
    if let OpenKind::Rows(_) = &kind {
        // rows have no node of their own
        let role = role_left(kind);
        if !parent.receive(role, &NodeKind::Container, has_children, is_stray)? {
            tree.truncate(start);
        }
        return Ok(());
    }
    if !matches!(kind, OpenKind::Parts(_) | OpenKind::Row(_)) {
        write_due(due, start, tree, spare)?;
    }
    let has_children = matches!(kind, OpenKind::Parts(_)) || has_children;
    close_node(role_left(kind), has_children, is_stray, start, parent, tree)
}

/// Returns the role of what an element of this kind becomes.
#[inline(always)]
fn role_left(kind: OpenKind) -> Role
    ensures { result ≡ role_left kind }
{
    match kind {
        OpenKind::Rows(rows) => Role::Rows(rows),
        OpenKind::Row(cells) => Role::Row(cells),
        OpenKind::Cell(span) => Role::Cell(span),
        OpenKind::Caption => Role::Caption,
        _ => Role::Contents,
    }
}

/// Writes what is due after the children of an element whose node is at `start`.
#[inline(always)]
fn write_due(due: Due, start: usize, tree: &mut Tree, spare: &mut Spare) -> Result<(), AllocError>
    ensures own { OnOk result (drop start tree.new.items ≡ with_back due.own.back (drop start tree.old.items)) }
    ensures below { OnOk result (take start tree.new.items ≡ take start tree.old.items) }
{
    if due.is_none() || start >= tree.len() {
        return Ok(());
    }
    due.write_back(tree, spare)
}

/// Closes an element whose node is at `start`, if its parent keeps it.
#[inline(always)]
fn close_node(
    role: Role,
    has_children: bool,
    is_stray: bool,
    start: usize,
    parent: &mut Open,
    tree: &mut Tree,
) -> Result<(), AllocError>
    ensures { OnOk result (record { element = parent.new; tree = tree.new.items }
        ≡ come (closed_node role has_children is_stray (drop start tree.old.items)) (record { element = parent.old; tree = take start tree.old.items })) }
{
    let Some(entry) = tree.get(start) else {
        return Ok(());
    };
    if parent.receive(role, &entry.node.kind, has_children, is_stray)? {
        write_size(tree, start);
    } else {
        tree.truncate(start);
    }
    Ok(())
}

/// Closes an element that is no part of a table and whose node is at `start`, if its parent keeps it.
#[inline(always)]
fn close_contents(
    has_children: bool,
    is_stray: bool,
    start: usize,
    parent: &mut Open,
    tree: &mut Tree,
)
    ensures { record { element = parent.new; tree = tree.new.items }
        ≡ come (closed_node Role.Contents has_children is_stray (drop start tree.old.items)) (record { element = parent.old; tree = take start tree.old.items }) }
{
    let Some(entry) = tree.get(start) else {
        return;
    };
    if parent.receive_contents(&entry.node.kind, has_children, is_stray) {
        write_size(tree, start);
    } else {
        tree.truncate(start);
    }
}
