//! Laws of default values. Each is the contract of an empty function.

ghost use Rattle.std.specs.Prelude.{◌≡◌, ◌↔◌};

use crate::white_space::WhiteSpace;

/// States that the default is `Normal`: white space is collapsed, and lines are wrapped.
fn white_space_is_normal_by_default(white_space: WhiteSpace)
    ensures { ⟦<WhiteSpace as Default>⟧.is_default white_space ↔ (white_space ≡ WhiteSpace.Normal) }
{}
