//! Attributes of an element by local name, which rules test.

ghost use Rattle.std.specs.Prelude.{◌≡◌, find, map, option_copied};
ghost use Rattle.std.specs.Str.{bytes_eq};
ghost use Rattle.html_render_dom.specs.Attributes.{first_value};
ghost use Rattle.html_render_dom_nodes.specs.Content.{property_of};

use html_render_dom_nodes::{Attribute, is_same_name};

/// Returns the first attribute with the local name `name`, in any namespace.
fn first_named<'a>(attrs: &'a [Attribute], name: &str) -> Option<&'a Attribute>
    ensures { option_copied result ≡ find (λ a. bytes_eq a.name.local name.now) attrs.now }
{
    attrs.iter().find(|attribute| is_same_name(attribute.name.local.as_str(), name))
}

/// Returns the value of the first attribute with the local name `name`, in any namespace; `None` if there is none.
#[inline]
#[tactic(auto, using(crate::proofs::Attributes::finds))]
pub fn first_value<'a>(attrs: &'a [Attribute], name: &str) -> Option<&'a str>
    ensures { option_copied result ≡ first_value name.now (map property_of attrs.now) }
{
    match first_named(attrs, name) {
        None => None,
        Some(attribute) => Some(attribute.value.as_str()),
    }
}
