//! Elements as cases write them: `p`, `{svg}title`; attributes follow the name, as in `a@href=u@id=f`.

use crate::texts::{escaped, unescaped};
use html_render_dom::dom::{Attribute, AttributeValue, LocalName, Namespace, NodeData, QualName};
use std::alloc::{AllocError, Global};

/// Returns the name of an element: a local name of HTML, or one after its namespace in braces.
pub fn element_name(alloc: Global, text: &str) -> Result<QualName, AllocError> {
    let (space, local) = text.split_once('}').unwrap_or(("{html", text));
    let ns = match space.trim_start_matches('{') {
        "html" => Namespace::Html,
        "svg" => Namespace::Svg,
        "mathml" => Namespace::MathMl,
        "none" => Namespace::None,
        other => Namespace::Other(Box::new(alloc, String::from_str(alloc, other)?)?),
    };
    let local = LocalName::from_str(alloc, local)?;
    Ok(QualName { ns, local })
}

/// Returns the attributes of a text, each after `@`. They have no namespace.
pub fn attributes(alloc: Global, text: &str) -> Result<Vec<Attribute>, AllocError> {
    let mut attributes = Vec::new(alloc);
    for (name, value) in text.split('@').filter_map(|field| field.split_once('=')) {
        let ns = Namespace::None;
        let local = LocalName::from_str(alloc, name)?;
        attributes.push(Attribute {
            name: QualName { ns, local },
            value: AttributeValue::from(unescaped(alloc, value)?),
        })?;
    }
    Ok(attributes)
}

/// Returns attributes as a text, each after `@`.
pub fn shown_attributes(alloc: Global, attributes: &[Attribute]) -> Result<String, AllocError> {
    let mut shown = String::new(alloc);
    for attribute in attributes {
        let value = escaped(alloc, attribute.value.as_str())?;
        write!(shown, "@{}={value}", attribute.name.local.as_str())?;
    }
    Ok(shown)
}

/// Returns the data of a node as a text: a sign, as lines of a script have it, and its name or its text.
pub fn shown_data(alloc: Global, data: &NodeData) -> Result<String, AllocError> {
    match data {
        NodeData::Document => String::from_str(alloc, "document"),
        NodeData::Doctype { parts } => format!(in alloc; "<!{}", parts.name),
        NodeData::Text { contents } => {
            format!(in alloc; "\"{}", escaped(alloc, contents.as_str())?)
        }
        NodeData::Comment { contents } => format!(in alloc; "!{contents}"),
        NodeData::ProcessingInstruction { target, .. } => format!(in alloc; "?{target}"),
        NodeData::Element { name, attrs, .. } => {
            let space = match &name.ns {
                Namespace::Html => String::new(alloc),
                other => format!(in alloc; "{{{other:?}}}")?,
            };
            let attributes = shown_attributes(alloc, attrs.as_slice())?;
            format!(in alloc; "<{space}{}{attributes}", name.local.as_str())
        }
    }
}
