//! Dumps of nodes as lines of text, for debugging: a `p` with the text `x` gives the lines `<p>`, ` Text:x` and `</p>`.

ghost use Rattle.std.specs.Prelude.{◌≡◌, ◌+◌, ◌*◌, ◌<◌, ◌≤◌, ◌++◌, ◌∷◌, [], All, IfOk, OnOk, codes, replicate, string_bytes};
ghost use Rattle.html_render_dom_values.specs.Outcome.{OnlyOutOfMemory};
ghost use Rattle.html_render_dom_values.specs.Forest.{count, depth};
ghost use Rattle.html_render_dom.specs.Dom.{IsForest, IsNode, content_at, node_count, tree_of};
ghost use Rattle.html_render_dom.specs.Dump.{dump, dump_line, text_line};
ghost use Rattle.html_render_dom.specs.Frames.{FrameFits, Starts, closing_line, rest, rest_of, steps, steps_of};

use super::documents::RcDom;
use html_render_dom_nodes::{Handle, NodeData};
use html_render_dom_values::Error;
use std::alloc::{AllocError, Global};

/// An open node of a dump: its start is written, and its end isn't.
#[derive(Drop)]
pub struct Frame {
    /// The node.
    pub node: Handle,
    /// Number of its children whose start is written.
    pub passed: usize,
    /// Indent of its children, in spaces.
    pub indent: usize,
}

impl RcDom {
    /// Returns a dump of the node and its descendants.
    ///
    /// | Node | Pieces |
    /// |---|---|
    /// | document | those of its children, at its own indent |
    /// | doctype | `<doctype>` |
    /// | text | `Text:` and the text as it is, with its line feeds; nothing if it is white space alone |
    /// | element | `<name>` with the local name, those of its children one space deeper, and `</name>` |
    /// | comment, processing instruction | nothing |
    ///
    /// Each piece follows its indent in spaces and ends with a line feed. The node itself has the indent 0.
    ///
    /// # Errors
    ///
    /// Returns `OutOfMemory` if an allocation is refused.
    pub fn node_as_dom_string(&self, alloc: Global, node: Handle) -> Result<String, Error>
        requires { IsNode self.now node }
        ensures ok { IfOk result (λ text. string_bytes text ≡ dump 0 (tree_of self.now node)) }
        ensures err { OnlyOutOfMemory result }
    {
        // naming a field gives the proof the invariant that the nodes are a forest
        let _ = &self.nodes;
        let mut text = String::new(alloc);
        let mut frames = Vec::new(alloc);
        self.write_start(&mut text, &mut frames, node, 0)?;
        while let Some(frame) = frames.pop() {
            self.write_next(&mut text, &mut frames, frame)?;
        }
        Ok(text)
    }

    /// Returns a dump of the document node, as [`node_as_dom_string`](RcDom::node_as_dom_string) does.
    ///
    /// # Errors
    ///
    /// Returns `OutOfMemory` if an allocation is refused.
    pub fn as_dom_string(&self, alloc: Global) -> Result<String, Error>
        ensures ok { IfOk result (λ text. string_bytes text ≡ dump 0 (tree_of self.now 0)) }
        ensures err { OnlyOutOfMemory result }
    {
        self.node_as_dom_string(alloc, self.get_document())
    }

    /// Writes the start of the next child of an open node, or the node's end if it has no more children.
    fn write_next(
        &self,
        text: &mut String,
        frames: &mut Vec<Frame>,
        frame: Frame,
    ) -> Result<(), AllocError>
        requires frame { FrameFits self.now frame }
        requires frames { All (FrameFits self.now) frames.old.items }
        ensures ok { OnOk result (string_bytes text.new ++ rest self.now frames.new.items
            ≡ string_bytes text.old ++ (rest_of self.now frame ++ rest self.now frames.old.items)) }
        ensures frames { OnOk result (All (FrameFits self.now) frames.new.items) }
        ensures steps { OnOk result (steps self.now frames.new.items
            < steps_of self.now frame + steps self.now frames.old.items) }
    {
        let children = self.entry(frame.node).children.as_slice();
        if frame.passed < children.len() {
            let child = children[frame.passed];
            frames.push(Frame {
                node: frame.node,
                passed: frame.passed + 1,
                indent: frame.indent,
            })?;
            self.write_start(text, frames, child, frame.indent)
        } else {
            self.write_end(text, frame.node, frame.indent)
        }
    }

    /// Writes the start of a node. Pushes a frame for the children and the end of a document or an element.
    fn write_start(
        &self,
        text: &mut String,
        frames: &mut Vec<Frame>,
        node: Handle,
        indent: usize,
    ) -> Result<(), AllocError>
        requires node { IsNode self.now node }
        requires indent { indent + depth (tree_of self.now node) ≤ node_count self.now }
        requires frames { All (FrameFits self.now) frames.old.items }
        ensures { Starts result self.now (string_bytes text.old) (string_bytes text.new) (dump indent (tree_of self.now node))
            frames.old.items frames.new.items (2 * count (tree_of self.now node)) }
    {
        // naming a field gives the proof the invariant that the nodes are a forest
        let _ = &self.nodes;
        match self.data(node) {
            NodeData::Document => open_children(frames, node, indent),
            NodeData::Doctype { .. } => write_line(text, indent, "<doctype>", "", ""),
            NodeData::Text { contents } => write_text(text, indent, contents.as_str()),
            NodeData::Element { name, .. } => {
                write_line(text, indent, "<", name.local.as_str(), ">")?;
                open_children(frames, node, indent + 1)
            }
            NodeData::Comment { .. } | NodeData::ProcessingInstruction { .. } => Ok(()),
        }
    }

    /// Writes the end of a node whose children have this indent.
    fn write_end(&self, text: &mut String, node: Handle, indent: usize) -> Result<(), AllocError>
        requires { IsNode self.now node }
        ensures { OnOk result (string_bytes text.new
            ≡ string_bytes text.old ++ closing_line indent (content_at self.now node)) }
    {
        match self.data(node) {
            NodeData::Element { name, .. } => {
                write_line(
                    text,
                    indent.saturating_sub(1),
                    "</",
                    name.local.as_str(),
                    ">",
                )
            }
            _ => Ok(()),
        }
    }
}

/// Pushes a frame for a node whose children have this indent.
fn open_children(frames: &mut Vec<Frame>, node: Handle, indent: usize) -> Result<(), AllocError>
    ensures { OnOk result (frames.new.items
        ≡ frames.old.items ++ record { node = node; passed = 0; indent = indent } ∷ []) }
{
    frames.push(Frame {
        node,
        passed: 0,
        indent,
    })?;
    Ok(())
}

/// Writes a text, unless it is white space alone.
fn write_text(text: &mut String, indent: usize, contents: &str) -> Result<(), AllocError>
    ensures { OnOk result (string_bytes text.new ≡ string_bytes text.old ++ text_line indent contents.now) }
{
    if contents.trim().is_empty() {
        return Ok(());
    }
    write_line(text, indent, "Text:", contents, "")
}

/// Writes the indent, the three pieces and a line feed.
fn write_line(
    text: &mut String,
    indent: usize,
    first: &str,
    middle: &str,
    last: &str,
) -> Result<(), AllocError>
    ensures { OnOk result (string_bytes text.new
        ≡ string_bytes text.old ++ dump_line indent (first.now ++ (middle.now ++ last.now))) }
{
    write_indent(text, indent)?;
    text.push_str(first)?;
    text.push_str(middle)?;
    text.push_str(last)?;
    text.push('\n')
}

/// Writes `indent` spaces.
fn write_indent(text: &mut String, indent: usize) -> Result<(), AllocError>
    ensures { OnOk result (string_bytes text.new ≡ string_bytes text.old ++ replicate indent 32) }
{
    for _ in 0..indent {
        text.push(' ')?;
    }
    Ok(())
}
