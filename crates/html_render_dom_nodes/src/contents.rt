//! Data of nodes, and children that calls insert.

use crate::attributes::Attributes;
use crate::handles::{Handle, OptionalHandle};
use crate::names::QualName;
use html_render_dom_values::small_text::SmallText;
use std::alloc::{AllocError, Global};

/// Text of a text node. Up to 30 bytes are stored in the node, without an allocation.
pub type TextContents = SmallText<30>;

/// Name and identifiers of a doctype.
#[derive(Drop)]
pub struct DoctypeParts {
    /// Name, such as `html`.
    pub name: String,
    /// Public identifier.
    pub public_id: String,
    /// System identifier.
    pub system_id: String,
}

/// The data of a node, without its children and its parent.
#[derive(Drop)]
pub enum NodeData {
    /// The document, or the contents of a template.
    Document,
    /// A doctype.
    Doctype {
        /// Name and identifiers.
        parts: Box<DoctypeParts>,
    },
    /// A text.
    Text {
        /// Text of the node.
        contents: TextContents,
    },
    /// A comment.
    Comment {
        /// Text of the comment.
        contents: String,
    },
    /// An element.
    Element {
        /// Whether the element is an HTML integration point of MathML's `annotation-xml`. As the first field it makes no
        /// node larger.
        mathml_annotation_xml_integration_point: bool,
        /// Name of the element.
        name: QualName,
        /// Attributes, in the order in which they were given.
        attrs: Attributes,
        /// Document node with the contents of an HTML `template`; none for other elements.
        template_contents: OptionalHandle,
    },
    /// A processing instruction.
    ProcessingInstruction {
        /// Target of the instruction.
        target: String,
        /// Text after the target.
        contents: String,
    },
}

impl NodeData {
    ghost use Rattle.std.specs.Prelude.{◌≡◌, IfOk, string_bytes};
    ghost use Rattle.html_render_dom_nodes.specs.Content.{content_of, doctype, text};

    /// Creates the data of a doctype.
    ///
    /// # Errors
    ///
    /// Returns an error if an allocation is refused.
    pub fn doctype(
        alloc: Global,
        name: String,
        public_id: String,
        system_id: String,
    ) -> Result<NodeData, AllocError>
        ensures { IfOk result (λ made. content_of made
            ≡ doctype (string_bytes name) (string_bytes public_id) (string_bytes system_id)) }
    {
        let parts = Box::new(
            alloc,
            DoctypeParts {
                name,
                public_id,
                system_id,
            },
        )?;
        Ok(NodeData::Doctype { parts })
    }

    /// Creates the data of a text node.
    #[inline]
    pub fn text(contents: String) -> NodeData
        ensures { content_of result ≡ text (string_bytes contents) }
    {
        NodeData::Text {
            contents: TextContents::from(contents),
        }
    }

    /// Creates the data of a text node with a copy of the text.
    ///
    /// # Errors
    ///
    /// Returns an error if an allocation is refused.
    #[inline]
    pub fn text_of(alloc: Global, contents: &str) -> Result<NodeData, AllocError>
        ensures { IfOk result (λ made. content_of made ≡ text contents.now) }
    {
        let contents = TextContents::from_str(alloc, contents)?;
        Ok(NodeData::Text { contents })
    }
}

/// A node or a text to insert into a list of children.
#[derive(Drop)]
pub enum NodeOrText {
    /// A node of the document.
    AppendNode(Handle),
    /// A text. It is appended to the text node directly before its place, if there is one.
    AppendText(String),
}
