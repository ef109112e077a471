//! A law of the flags of elements, as the contract of an empty function.

ghost use Rattle.std.specs.Prelude.{◌≡◌, ◌↔◌, false};

use crate::flags::ElementFlags;

/// By default no flag of an element is set.
fn flags_default_to_false(flags: ElementFlags)
    ensures { ⟦<ElementFlags as Default>⟧.is_default flags
        ↔ (flags ≡ record { template = false; mathml_annotation_xml_integration_point = false }) }
{}
