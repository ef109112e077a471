//! Names of elements and attributes.

ghost use Rattle.std.specs.Cmp.{on_equiv, partial_equiv_from_equiv};
ghost use Rattle.html_render_dom_nodes.specs.Content.{name_of, property_of, space_of};
ghost use Rattle.html_render_dom_nodes.specs.Names.{name_eq, property_eq, space_eq};
ghost use Rattle.html_render_dom_nodes.specs.laws.Names.{name_eq_equiv, property_eq_equiv, space_eq_equiv};
ghost use Rattle.std.specs.Prelude.{◌≡◌, map};
ghost use Rattle.std.specs.List.{slice_index_or};
ghost use Rattle.std.specs.Str.{bytes_eq};
ghost use Rattle.html_render_dom_nodes.specs.Elements.{has_name};
ghost use Rattle.html_render_dom_nodes.specs.Content as content;

use crate::local_name::LocalName;
use html_render_dom_values::small_text::SmallText;
use std::mem::size_of;

/// The namespace of a name.
#[derive(Debug, Drop)]
pub enum Namespace {
    /// No namespace.
    None,
    /// HTML.
    Html,
    /// SVG.
    Svg,
    /// MathML.
    MathMl,
    /// Any other namespace, by its address (URI). It equals none of the other variants, whatever the address.
    Other(Box<String>),
}

/// A qualified name: a namespace and a local name.
#[derive(Debug, Drop)]
pub struct QualName {
    /// Namespace.
    pub ns: Namespace,
    /// Local name, within the namespace.
    pub local: LocalName,
}

/// Value of an attribute. Up to 30 bytes need no allocation.
pub type AttributeValue = SmallText<30>;

/// An attribute of an element.
#[derive(Debug, Drop)]
pub struct Attribute {
    /// Name of the attribute.
    pub name: QualName,
    /// Value of the attribute.
    pub value: AttributeValue,
}

const _: () = prove!(size_of::<QualName>() == 32);

const _: () = prove!(size_of::<Attribute>() == 64);

impl QualName {
    /// Creates a name in the HTML namespace.
    pub fn html(local: LocalName) -> QualName
        ensures { name_of result ≡ record { space = content.html; local = local } }
    {
        QualName {
            ns: Namespace::Html,
            local,
        }
    }
}

impl PartialEq for Namespace {
    ghost eq = { λ a b. space_eq (space_of a) (space_of b) };

    ghost laws = { partial_equiv_from_equiv (on_equiv space_of space_eq_equiv) };

    fn eq(&self, other: &Namespace) -> bool {
        match (self, other) {
            (Namespace::None, Namespace::None) => true,
            (Namespace::Html, Namespace::Html) => true,
            (Namespace::Svg, Namespace::Svg) => true,
            (Namespace::MathMl, Namespace::MathMl) => true,
            (Namespace::Other(a), Namespace::Other(b)) => a == b,
            _ => false,
        }
    }
}

impl Eq for Namespace {
    ghost laws = { on_equiv space_of space_eq_equiv };
}

impl PartialEq for QualName {
    ghost eq = { λ a b. name_eq (name_of a) (name_of b) };

    ghost laws = { partial_equiv_from_equiv (on_equiv name_of name_eq_equiv) };

    fn eq(&self, other: &QualName) -> bool {
        self.ns == other.ns && self.local == other.local
    }
}

impl Eq for QualName {
    ghost laws = { on_equiv name_of name_eq_equiv };
}

impl PartialEq for Attribute {
    ghost eq = { λ a b. property_eq (property_of a) (property_of b) };

    ghost laws = { partial_equiv_from_equiv (on_equiv property_of property_eq_equiv) };

    fn eq(&self, other: &Attribute) -> bool {
        self.name == other.name && self.value == other.value
    }
}

impl Eq for Attribute {
    ghost laws = { on_equiv property_of property_eq_equiv };
}

/// Returns a byte of a text; 0 after the last one.
#[inline(always)]
fn byte_at(text: &str, at: usize) -> u8
    ensures { result ≡ slice_index_or text.now at 0 }
{
    match text.as_bytes().get(at) {
        Some(byte) => *byte,
        None => 0,
    }
}

/// Reports whether two local names are the same.
///
/// Their lengths and first two bytes are compared in place, so that most names that differ, and those of one or two letters, need
/// no call. A `match` would call a comparison of texts for each name that it lists.
#[inline(always)]
#[tactic(auto, using(crate::proofs::SameNames::compared))]
pub fn is_same_name(name: &str, other: &str) -> bool
    ensures { result ≡ bytes_eq name.now other.now }
{
    name.len() == other.len()
        && byte_at(name, 0) == byte_at(other, 0)
        && byte_at(name, 1) == byte_at(other, 1)
        && (name.len() <= 2 || name == other)
}

/// Reports whether one of the attributes has the name.
pub(crate) fn has_name(attrs: &[Attribute], name: &QualName) -> bool
    ensures { result ≡ has_name (map property_of attrs.now) (name_of name.now) }
{
    attrs.iter().any(|a| a.name == *name)
}
