//! What is read of an element's attributes: the first of a name, the number of a list's first item, what a cell of a table
//! spans, and the name of a mark.

ghost use Rattle.std.specs.Prelude.{◌≡◌, ◌&&◌, IfOk, codes, find, map, option_copied, option_map, pos, reverse, string_bytes, unwrap_or};
ghost use Rattle.std.specs.Str.{bytes_eq};
ghost use Rattle.html_render_dom_nodes.specs.Content.{name_of, property_of, space_of, is_html};
ghost use Rattle.html_render_dom.specs.Attributes.{first_value};
ghost use Rattle.html_render_tree_convert.specs.Conversion.{number_of, start_of};
ghost use Rattle.html_render_tree_convert.specs.Marks.{names_mark, mark_of};
ghost use Rattle.html_render_tree_convert.specs.Tables.{size_of, size_or_one, span_of};

use crate::tables::CellSpan;
use html_render_dom::Error;
use html_render_dom::dom::{Attribute, AttributeValue, Namespace, QualName};
use html_render_dom_nodes::is_same_name;
use html_render_layout_nodes::text::NodeText;
use std::alloc::{AllocError, Global};

/// Returns the first attribute of a local name.
fn attribute_named<'a>(attributes: &'a [Attribute], name: &str) -> Option<&'a Attribute>
    ensures { option_copied result ≡ find (λ a. bytes_eq a.name.local name.now) attributes.now }
{
    attributes.iter().find(|attribute| is_same_name(attribute.name.local.as_str(), name))
}

/// Returns the value of the first attribute of a local name.
#[tactic(auto, using(crate::proofs::Numbers::starts))]
pub fn first_value<'a>(attributes: &'a [Attribute], name: &str) -> Option<&'a AttributeValue>
    ensures { option_map (λ value. value.now) result ≡ first_value name.now (map property_of attributes.now) }
{
    match attribute_named(attributes, name) {
        Some(attribute) => Some(&attribute.value),
        None => None,
    }
}

/// Returns the number that a text is, and 1 if it is none.
fn number_or_one(text: &str) -> i64
    ensures { result ≡ unwrap_or (number_of text.now) (pos 1) }
{
    text.parse().unwrap_or(1)
}

/// Returns the number of an ordered list's first item, by the list's attributes.
pub fn start_of(attributes: &[Attribute]) -> i64
    ensures { result ≡ start_of (map property_of attributes.now) }
{
    match first_value(attributes, "start") {
        Some(number) => number_or_one(number.as_str()),
        None => 1,
    }
}

/// Returns the last attribute of a local name.
fn last_named<'a>(attributes: &'a [Attribute], name: &str) -> Option<&'a Attribute>
    ensures { option_copied result ≡ find (λ a. bytes_eq a.name.local name.now) (reverse attributes.now) }
{
    attributes.iter().rev().find(|attribute| is_same_name(attribute.name.local.as_str(), name))
}

/// Returns the number that a text is, and 1 if it is none.
fn size_or_one(text: &str) -> usize
    ensures { result ≡ unwrap_or (size_of text.now) 1 }
{
    text.parse().unwrap_or(1)
}

/// Returns the number of the last attribute of a local name, and 1 without such a number.
fn last_size(attributes: &[Attribute], name: &str) -> usize
    ensures { result ≡ size_or_one name.now (map property_of attributes.now) }
{
    match last_named(attributes, name) {
        Some(attribute) => size_or_one(attribute.value.as_str()),
        None => 1,
    }
}

/// Returns the span of a cell of a table by its attributes: as many columns as its last `colspan` says, and as many rows as its
/// last `rowspan` says, at least 1.
pub fn span_of(attributes: &[Attribute]) -> CellSpan
    ensures { result ≡ span_of (map property_of attributes.now) }
{
    CellSpan {
        colspan: last_size(attributes, "colspan"),
        rowspan: last_size(attributes, "rowspan").max(1),
    }
}

/// Reports whether an element is an `a` of HTML.
fn is_anchor(element: &QualName) -> bool
    ensures { result ≡ (is_html (space_of element.now.ns) && bytes_eq element.now.local (codes "a")) }
{
    match element.ns {
        Namespace::Html => element.local.as_str() == "a",
        _ => false,
    }
}

/// Reports whether an attribute of an element names its mark.
fn names_mark(element: &QualName, attribute: &Attribute) -> bool
    ensures { result ≡ names_mark (name_of element.now) (property_of attribute.now) }
{
    let name = attribute.name.local.as_str();
    name == "id" || (name == "name" && is_anchor(element))
}

/// Returns the first attribute of an element that names its mark.
pub(crate) fn mark_attribute<'a>(
    element: &QualName,
    attributes: &'a [Attribute],
) -> Option<&'a Attribute>
    ensures { option_copied result ≡ find (λ a. names_mark (name_of element.now) (property_of a)) attributes.now }
{
    attributes
        .iter()
        .find(|attribute| names_mark(element, attribute))
}

/// Returns the name of an element's mark, if it has one.
///
/// # Errors
///
/// `AllocError`, where the name can't be copied.
#[tactic(auto, using(crate::proofs::Numbers::starts))]
pub fn mark_of(
    alloc: Global,
    element: &QualName,
    attributes: &[Attribute],
) -> Result<Option<NodeText>, AllocError>
    ensures { IfOk result (λ mark. mark ≡ mark_of (name_of element.now) (map property_of attributes.now)) }
{
    match mark_attribute(element, attributes) {
        Some(attribute) => {
            let name = NodeText::from_str(alloc, attribute.value.as_str())?;
            Ok(Some(name))
        }
        None => Ok(None),
    }
}
