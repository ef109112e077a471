//! What a line's tags and marks are stored as.

use html_render_layout_lines::tag::Tag;

/// The tag of one byte of a line, or a mark.
#[derive(Clone, Copy)]
pub enum Slot<T, M> {
    /// Tag of a byte.
    Byte(T),
    /// A mark, which has no byte.
    Mark(M),
}

impl<T: Tag, M: Copy> Tag for Slot<T, M> {
    #[inline]
    fn is_same(&self, other: &Slot<T, M>) -> bool {
        match self {
            Slot::Byte(own) => match other {
                Slot::Byte(tag) => own.is_same(tag),
                Slot::Mark(_) => false,
            },
            Slot::Mark(_) => false,
        }
    }
}
