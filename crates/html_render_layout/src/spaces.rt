//! Spaces: the prefixes of later lines, and the padding of items' prefixes.

ghost use Rattle.std.specs.Prelude.{◌≡◌, ◌-◌, ◌++◌, IfOk, OnOk, string_bytes};
ghost use Rattle.std.specs.Str.{chars};
ghost use Rattle.html_render_dom_values.specs.Outcome.{OnlyOutOfMemory};
ghost use Rattle.html_render_layout.specs.Layout.{spaces, padded};

use html_render_dom_values::Error;
use html_render_layout_estimates::text::columns;
use std::alloc::{AllocError, Global};

/// Appends `count` spaces to a text.
fn push_spaces(text: &mut String, count: usize) -> Result<(), AllocError>
    ensures { OnOk result (string_bytes text.new ≡ string_bytes text.old ++ spaces count) }
{
    for _ in 0..count {
        text.push(' ')?;
    }
    Ok(())
}

/// Returns a text of `count` spaces.
///
/// # Errors
///
/// `OutOfMemory`.
pub fn many_spaces(alloc: Global, count: usize) -> Result<String, Error>
    ensures ok { IfOk result (λ text. chars (string_bytes text) ≡ spaces count) }
    ensures err { OnlyOutOfMemory result }
{
    let mut text = String::new(alloc);
    push_spaces(&mut text, count)?;
    Ok(text)
}

/// Pads a prefix with spaces to `count` columns. A wider one is returned as it is.
///
/// # Errors
///
/// `OutOfMemory`.
pub fn padded(prefix: String, count: usize) -> Result<String, Error>
    ensures ok { IfOk result (λ text. string_bytes text ≡ padded count (string_bytes prefix)) }
    ensures err { OnlyOutOfMemory result }
{
    let mut text = prefix;
    let missing = count.saturating_sub(columns(text.as_str()));
    push_spaces(&mut text, missing)?;
    Ok(text)
}
