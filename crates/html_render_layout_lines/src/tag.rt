//! Tags that can be compared.
//!
//! A text's neighbouring characters are kept together where `is_same` says that their tags are one.

ghost use Rattle.std.specs.Prelude.{◌≡◌};
ghost use Rattle.std.specs.Bool.{OnTrue};

use crate::character::TextStyle;

/// What the characters of a line are tagged with.
pub trait Tag: Copy {
    /// Whether two tags are one. Where it says no, two equal tags are kept apart, which costs memory only.
    fn is_same(&self, other: &Self) -> bool
        ensures { OnTrue result (self.now ≡ other.now) };
}

impl Tag for () {
    #[inline]
    fn is_same(&self, _other: &()) -> bool {
        true
    }
}

impl Tag for usize {
    #[inline]
    fn is_same(&self, other: &usize) -> bool {
        *self == *other
    }
}

impl<T: Tag> Tag for TextStyle<T> {
    #[inline]
    fn is_same(&self, other: &TextStyle<T>) -> bool {
        self.mode == other.mode
            && self.tag.is_same(&other.tag)
            && self.continuation_tag.is_same(&other.continuation_tag)
    }
}
