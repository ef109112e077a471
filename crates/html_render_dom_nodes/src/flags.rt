//! Flags for the creation of an element.

/// Flags that a parser passes to `RcDom::create_element`. By default none is set.
#[derive(Clone, Copy, Debug, Default, PartialEq, Eq)]
pub struct ElementFlags {
    /// Whether the element is an HTML `template`, whose contents are a document node of their own.
    pub template: bool,
    /// Whether the element is an HTML integration point of MathML's `annotation-xml`.
    pub mathml_annotation_xml_integration_point: bool,
}
