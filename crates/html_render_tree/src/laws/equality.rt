//! Equality of public types, each law the contract of an empty function.

ghost use Rattle.std.specs.Prelude.{◌≡◌, ◌↔◌, true};

use html_render_dom::Error;
use html_render_dom::dom::{ElementFlags, Handle, QuirksMode};
use html_render_dom::style::{
    Colour, Display, PseudoElement, Specificity, StyleOrigin, WhiteSpace,
};
use html_render_layout_estimates::settings::ImageRenderMode;
use html_render_parts::decorate::RichAnnotation;
use html_render_parts::table::CellKind;

/// Two errors, handles, element flags or quirks modes are equal exactly if they are the same value.
fn document_values_are_equal_as_values(
    a: Error,
    b: Error,
    x: Handle,
    y: Handle,
    f: ElementFlags,
    g: ElementFlags,
    m: QuirksMode,
    n: QuirksMode,
)
    ensures errors { (⟦<Error as PartialEq>⟧.eq a b ≡ true) ↔ (a ≡ b) }
    ensures handles { (⟦<Handle as PartialEq>⟧.eq x y ≡ true) ↔ (x ≡ y) }
    ensures flags { (⟦<ElementFlags as PartialEq>⟧.eq f g ≡ true) ↔ (f ≡ g) }
    ensures modes { (⟦<QuirksMode as PartialEq>⟧.eq m n ≡ true) ↔ (m ≡ n) }
{}

/// Two colours, treatments of white space, displays, pseudo-elements, origins or specificities are equal exactly if they
/// are the same value.
fn style_values_are_equal_as_values(
    a: Colour,
    b: Colour,
    c: WhiteSpace,
    d: WhiteSpace,
    e: Display,
    f: Display,
    g: PseudoElement,
    h: PseudoElement,
    m: StyleOrigin,
    n: StyleOrigin,
    x: Specificity,
    y: Specificity,
)
    ensures colours { (⟦<Colour as PartialEq>⟧.eq a b ≡ true) ↔ (a ≡ b) }
    ensures white_space { (⟦<WhiteSpace as PartialEq>⟧.eq c d ≡ true) ↔ (c ≡ d) }
    ensures displays { (⟦<Display as PartialEq>⟧.eq e f ≡ true) ↔ (e ≡ f) }
    ensures pseudo_elements { (⟦<PseudoElement as PartialEq>⟧.eq g h ≡ true) ↔ (g ≡ h) }
    ensures origins { (⟦<StyleOrigin as PartialEq>⟧.eq m n ≡ true) ↔ (m ≡ n) }
    ensures specificities { (⟦<Specificity as PartialEq>⟧.eq x y ≡ true) ↔ (x ≡ y) }
{}

/// Two kinds of cells, image modes or annotations of rich text are equal exactly if they are the same value. A text in
/// them is its bytes.
fn rendering_values_are_equal_as_values(
    a: CellKind,
    b: CellKind,
    c: ImageRenderMode,
    d: ImageRenderMode,
    x: RichAnnotation,
    y: RichAnnotation,
)
    ensures cells { (⟦<CellKind as PartialEq>⟧.eq a b ≡ true) ↔ (a ≡ b) }
    ensures images { (⟦<ImageRenderMode as PartialEq>⟧.eq c d ≡ true) ↔ (c ≡ d) }
    ensures annotations { (⟦<RichAnnotation as PartialEq>⟧.eq x y ≡ true) ↔ (x ≡ y) }
{}
