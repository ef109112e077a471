//! Elements that are open during a walk over a document.

ghost use Rattle.std.specs.Prelude.{◌≡◌, IfOk, OnOk};
ghost use Rattle.html_render_tree_convert.specs.Conversion.{vanishes};
ghost use Rattle.html_render_tree_convert.specs.OpenElements.{created};
ghost use Rattle.html_render_tree_convert.specs.Results.{stands_alone};
ghost use Rattle.html_render_tree_convert.specs.Steps.{accepts, counts_in, gathered, has_place, received};

use crate::due::Due;
use crate::kinds::{Keeping, shows_nothing};
use crate::mapping::IfEmpty;
use crate::tables::CellSpan;
use html_render_layout_nodes::tree::NodeKind;
use html_render_parts::table::spans::{PartRows, RowCells, TableSpans};
use std::alloc::AllocError;
use std::mem::size_of;

/// Role of a result for the element in which it comes.
#[derive(Drop)]
pub enum Role {
    /// No part of a table.
    Contents,
    /// A caption.
    Caption,
    /// Rows of a table.
    Rows(PartRows),
    /// A row of a table.
    Row(RowCells),
    /// A cell of a row.
    Cell(CellSpan),
}

impl Role {
    /// Reports whether a result with this role may be in no table: a caption is a container there.
    pub fn stands_alone(&self) -> bool
        ensures { result ≡ stands_alone self.now }
    {
        matches!(self, Role::Contents | Role::Caption)
    }
}

/// Kind of an open element, with what is gathered of a table.
#[derive(Drop)]
pub enum OpenKind {
    /// The outside of the document's node.
    Root,
    /// An element that becomes a node, or a container round one.
    Node(Keeping),
    /// A table whose captions come.
    Captions,
    /// A table whose rows come, with the spans of its cells.
    Parts(TableSpans),
    /// A part of a table, with its rows.
    Rows(PartRows),
    /// A row of a table, with its cells.
    Row(RowCells),
    /// A cell of a row.
    Cell(CellSpan),
    /// A caption.
    Caption,
}

impl OpenKind {
    /// Reports whether it keeps a result of this role and kind.
    #[inline(always)]
    fn keeps(&self, role: &Role, kind: &NodeKind) -> bool
        ensures { result ≡ accepts self.now role.now kind.now }
    {
        match self {
            OpenKind::Node(keeping) => keeping.keeps(kind),
            OpenKind::Captions => matches!(role, Role::Caption),
            OpenKind::Parts(_) => matches!(role, Role::Rows(_)),
            OpenKind::Rows(_) => matches!(role, Role::Row(_)),
            OpenKind::Row(_) => matches!(role, Role::Cell(_)),
            OpenKind::Root | OpenKind::Cell(_) | OpenKind::Caption => true,
        }
    }

    /// Reports whether a result of this role and kind counts.
    #[inline(always)]
    fn counts(&self, role: &Role, kind: &NodeKind, has_children: bool) -> bool
        ensures { result ≡ counts_in self.now role.now kind.now has_children }
    {
        match self {
            OpenKind::Node(Keeping::Shown) => {
                !(role.stands_alone() && shows_nothing(kind, has_children))
            }
            OpenKind::Captions => matches!(role, Role::Caption),
            OpenKind::Parts(_) => has_children && matches!(role, Role::Rows(_)),
            _ => true,
        }
    }

    /// Reports whether it keeps a result of this kind that is no part of a table.
    #[inline(always)]
    fn keeps_contents(&self, kind: &NodeKind) -> bool
        ensures { result ≡ accepts self.now Role.Contents kind.now }
    {
        match self {
            OpenKind::Node(keeping) => keeping.keeps(kind),
            OpenKind::Root | OpenKind::Cell(_) | OpenKind::Caption => true,
            OpenKind::Captions | OpenKind::Parts(_) | OpenKind::Rows(_) | OpenKind::Row(_) => false,
        }
    }

    /// Reports whether a result of this kind counts that is no part of a table.
    #[inline(always)]
    fn counts_contents(&self, kind: &NodeKind, has_children: bool) -> bool
        ensures { result ≡ counts_in self.now Role.Contents kind.now has_children }
    {
        match self {
            OpenKind::Node(Keeping::Shown) => !shows_nothing(kind, has_children),
            OpenKind::Captions | OpenKind::Parts(_) => false,
            _ => true,
        }
    }

    /// Reports whether a result of this role is in its place, if it is kept.
    #[inline(always)]
    fn has_place(&self, role: &Role) -> bool
        ensures { result ≡ has_place self.now role.now }
    {
        match self {
            OpenKind::Parts(_) | OpenKind::Rows(_) | OpenKind::Row(_) => true,
            _ => role.stands_alone(),
        }
    }

    /// Adds the rows, the row or the cell of a result to those of a table, of a part of it or of a row.
    #[inline(always)]
    fn gather(&mut self, role: Role) -> Result<(), AllocError>
        ensures { OnOk result (self.new ≡ gathered self.old role) }
    {
        match (self, role) {
            (OpenKind::Parts(spans), Role::Rows(rows)) => spans.push_part(rows),
            (OpenKind::Rows(rows), Role::Row(row)) => rows.push(row),
            (OpenKind::Row(cells), Role::Cell(cell)) => cells.push(cell.colspan, cell.rowspan),
            _ => Ok(()),
        }
    }
}

/// An element that is open. Its node and the nodes of its children are the last of a [`Tree`](crate::builder::Tree).
#[derive(Drop)]
pub struct Open {
    /// Its kind.
    pub kind: OpenKind,
    /// What it has still to write.
    pub due: Due,
    /// Index of its first entry in the tree.
    pub start: usize,
    /// What becomes of it without a result that counts.
    pub if_empty: IfEmpty,
    /// Whether a result that counts has come.
    pub has_results: bool,
    /// Whether it has children, insertions included.
    pub has_children: bool,
    /// Whether it is in a container that closes with it.
    pub is_wrapped: bool,
    /// Whether a part of a table is among its children that is in no table.
    pub is_stray: bool,
}

// A deep document has many elements open.
const _: () = prove!(size_of::<Open>() == 64);

impl Open {
    /// Creates an element to which no result has come, at the start of a tree.
    pub fn new(kind: OpenKind, due: Due, if_empty: IfEmpty, has_children: bool) -> Open
        ensures { result ≡ created kind due if_empty has_children }
    {
        Open {
            kind,
            due,
            start: 0,
            if_empty,
            has_results: false,
            has_children,
            is_wrapped: false,
            is_stray: false,
        }
    }

    /// Reports whether it becomes nothing.
    pub fn vanishes(&self) -> bool
        ensures { result ≡ vanishes self.now.if_empty self.now.has_results }
    {
        match self.if_empty {
            IfEmpty::Stands => false,
            IfEmpty::Vanishes => !self.has_results,
        }
    }

    /// Receives a result, and reports whether it keeps that. The caller writes its entries if so.
    #[inline(always)]
    pub fn receive(
        &mut self,
        role: Role,
        kind: &NodeKind,
        has_children: bool,
        is_stray: bool,
    ) -> Result<bool, AllocError>
        ensures kept { IfOk result (λ kept. kept ≡ accepts self.old.kind role kind.now) }
        ensures element { OnOk result (self.new ≡ received role kind.now has_children is_stray self.old) }
    {
        if !self.has_results {
            self.has_results = self.kind.counts(&role, kind, has_children);
        }
        if !self.kind.keeps(&role, kind) {
            return Ok(false);
        }
        self.has_children = true;
        if is_stray || !self.kind.has_place(&role) {
            self.is_stray = true;
        }
        self.kind.gather(role)?;
        Ok(true)
    }

    /// Receives a result that is no part of a table, and reports whether it keeps that. The caller writes its entries if so.
    #[inline(always)]
    pub fn receive_contents(&mut self, kind: &NodeKind, has_children: bool, is_stray: bool) -> bool
        ensures kept { result ≡ accepts self.old.kind Role.Contents kind.now }
        ensures element { self.new ≡ received Role.Contents kind.now has_children is_stray self.old }
    {
        if !self.has_results {
            self.has_results = self.kind.counts_contents(kind, has_children);
        }
        if !self.kind.keeps_contents(kind) {
            return false;
        }
        self.has_children = true;
        if is_stray {
            self.is_stray = true;
        }
        true
    }
}
