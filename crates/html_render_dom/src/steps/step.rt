//! Steps: calls on a document, as records of numbers.

ghost use Rattle.std.specs.Prelude.{◌≡◌};
ghost use Rattle.html_render_dom.specs.Steps as steps;
ghost use Rattle.html_render_dom_nodes.specs.Content.{space_of};

use crate::dom::{ElementFlags, Namespace, QuirksMode};

/// A call on a document.
///
/// Nodes have numbers: the document is 0, and each step that makes a node gives it the next one. Names and texts are pieces
/// of one buffer, given by their start and length in bytes. A step ignores the fields that its kind doesn't use.
#[repr(C)]
#[derive(Clone, Copy, Debug, Default, PartialEq, Eq)]
pub struct Step {
    /// Number of the call, a [`StepKind`].
    pub kind: u32,
    /// Of a name, in the lowest two bits, the namespace: 0 none, 1 HTML, 2 SVG, 3 MathML. Of an element also 4 for a
    /// template, and 8 for an integration point of MathML's `annotation-xml`. Of [`StepKind::SetQuirks`] the mode.
    pub flags: u32,
    /// Number of the node that the step is about: a parent, a sibling, or an element.
    pub node: u32,
    /// Number of another node.
    pub other: u32,
    /// Number of the node that is inserted.
    pub child: u32,
    /// Start of a name, in bytes of the buffer.
    pub name: u32,
    /// Length of the name in bytes.
    pub name_length: u32,
    /// Start of a text, in bytes of the buffer.
    pub value: u32,
    /// Length of the text in bytes.
    pub value_length: u32,
}

/// A call on a document. A step whose condition doesn't hold is faulty, as is one whose nodes or pieces of text aren't
/// there.
#[derive(Clone, Copy, Debug, PartialEq, Eq)]
pub enum StepKind {
    /// 1: Creates an element with this name, without attributes and without a parent.
    MakeElement,
    /// 2: Creates a comment of this text, without a parent.
    MakeComment,
    /// 3: Creates a processing instruction without a parent; the name is its target, and the text its contents.
    MakeInstruction,
    /// 4: Gives `node`, which must be an element, an attribute of this name and text, unless it has one of that name.
    AddAttribute,
    /// 5: Appends `child` to `node`. `child` must have no parent, and must not be `node` or an ancestor of it.
    PutNode,
    /// 6: Appends a text to `node`. It joins the last child if that is a text.
    PutText,
    /// 7: Removes `child` from its parent, if it has one, and inserts it directly before `node`. `node` must have a parent,
    /// and `child` must not be `node` or an ancestor of it.
    PutNodeBefore,
    /// 8: Inserts a text directly before `node`, which must have a parent. It joins a text node directly before that.
    PutTextBefore,
    /// 9: Does 7 if `node` has a parent, and otherwise 5 with the parent `other`.
    PutNodeByParent,
    /// 10: Does 8 if `node` has a parent, and otherwise 6 with the parent `other`.
    PutTextByParent,
    /// 11: Removes `node` from its parent, if it has one.
    Remove,
    /// 12: Appends all children of `node` to those of `other`. `node` must not be `other` or an ancestor of it.
    Reparent,
    /// 13: Gives the contents of `node`, which must be a template, the next number.
    TemplateContents,
    /// 14: Appends a doctype of this name to the document. Its public identifier is the text, and its system identifier is
    /// empty.
    PutDoctype,
    /// 15: Sets the quirks mode by the flags: 0 none, 1 limited quirks, any other number quirks.
    SetQuirks,
    /// 16: Creates an element as 1 does, and appends it to `node`.
    AppendElement,
}

impl Step {
    /// Returns the call that the step is; `None` if its kind is unknown.
    #[inline]
    pub fn step_kind(&self) -> Option<StepKind>
        ensures { result ≡ steps.kind_of self.now.kind }
    {
        match self.kind {
            1 => Some(StepKind::MakeElement),
            2 => Some(StepKind::MakeComment),
            3 => Some(StepKind::MakeInstruction),
            4 => Some(StepKind::AddAttribute),
            5 => Some(StepKind::PutNode),
            6 => Some(StepKind::PutText),
            7 => Some(StepKind::PutNodeBefore),
            8 => Some(StepKind::PutTextBefore),
            9 => Some(StepKind::PutNodeByParent),
            10 => Some(StepKind::PutTextByParent),
            11 => Some(StepKind::Remove),
            12 => Some(StepKind::Reparent),
            13 => Some(StepKind::TemplateContents),
            14 => Some(StepKind::PutDoctype),
            15 => Some(StepKind::SetQuirks),
            16 => Some(StepKind::AppendElement),
            _ => None,
        }
    }

    /// Returns the quirks mode that the step sets.
    #[inline]
    pub fn quirks_mode(&self) -> QuirksMode
        ensures { result ≡ steps.quirks_mode self.now.flags }
    {
        match self.flags {
            0 => QuirksMode::NoQuirks,
            1 => QuirksMode::LimitedQuirks,
            _ => QuirksMode::Quirks,
        }
    }

    /// Returns the namespace of the step's name.
    #[inline]
    pub fn namespace(&self) -> Namespace
        ensures { space_of result ≡ steps.space self.now.flags }
    {
        match self.flags % 4 {
            0 => Namespace::None,
            1 => Namespace::Html,
            2 => Namespace::Svg,
            _ => Namespace::MathMl,
        }
    }

    /// Returns the flags of the step's element.
    #[inline]
    pub fn element_flags(&self) -> ElementFlags
        ensures { result ≡ steps.element_flags self.now.flags }
    {
        ElementFlags {
            template: self.flags / 4 % 2 == 1,
            mathml_annotation_xml_integration_point: self.flags / 8 % 2 == 1,
        }
    }
}
