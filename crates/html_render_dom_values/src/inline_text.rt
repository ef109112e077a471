//! Texts of at most 255 bytes, in the value itself.

ghost use Rattle.std.specs.Prelude.{◌≡◌, ◌≤◌, ◌+◌, ◌++◌, ◌↔◌, [], IsSome, IfSome, length, min};

use std::marker::Model;
use std::str;

/// Text of up to `ROOM` bytes, but no more than 255, in an array.
///
/// In contracts, a text is its bytes.
#[derive(Drop)]
pub(crate) struct InlineText<const ROOM: usize> {
    /// The text in UTF-8, and then bytes of any value.
    bytes: [u8; ROOM],
    /// Length of the text in bytes.
    len: u8,
}

impl<const ROOM: usize> Model for InlineText<ROOM> {
    ghost use Rattle.std.specs.Prelude.{◌≤◌, List, ℕ, take, IsUtf8};

    ghost Value = { List ℕ };

    ghost view = { λ t. take t.len t.bytes };

    ghost invariant = { λ t. (t.len ≤ ROOM) × ∥ IsUtf8 (take t.len t.bytes) ∥₁ };
}

impl<const ROOM: usize> InlineText<ROOM> {
    /// Returns an empty text.
    #[inline]
    pub(crate) fn new() -> InlineText<ROOM>
        ensures { result ≡ [] }
    {
        InlineText {
            bytes: [0; ROOM],
            len: 0,
        }
    }

    /// Returns the number of bytes that a text can have.
    #[inline]
    pub(crate) fn capacity() -> usize
        ensures { result ≡ min ROOM 255 }
    {
        if ROOM < 255 { ROOM } else { 255 }
    }

    /// Returns a copy of `text`, or `None` if it is longer than the capacity.
    #[inline]
    pub(crate) fn try_from_str(text: &str) -> Option<InlineText<ROOM>>
        ensures variant { IsSome result ↔ (length text.now ≤ min ROOM 255) }
        ensures some { IfSome result (λ t. t ≡ text.now) }
    {
        if text.len() > InlineText::<ROOM>::capacity() {
            return None;
        }
        let mut copy = InlineText::new();
        copy.push_str(text);
        Some(copy)
    }

    /// Returns a copy of the text.
    #[inline]
    pub(crate) fn copied(&self) -> InlineText<ROOM>
        ensures { result ≡ self.now }
    {
        InlineText {
            bytes: self.bytes,
            len: self.len,
        }
    }

    /// Borrows the text.
    #[inline]
    pub(crate) fn as_str(&self) -> &str
        ensures { result.now ≡ self.now }
    {
        unsafe { str::from_utf8_unchecked(&self.bytes[..self.len as usize]) }
    }

    /// Returns the number of further bytes that the text can have.
    #[inline]
    pub(crate) fn remaining_capacity(&self) -> usize
        ensures { result + length self.now ≡ min ROOM 255 }
    {
        InlineText::<ROOM>::capacity() - self.len as usize
    }

    /// Appends `more`, for which there must be room.
    #[inline]
    pub(crate) fn push_str(&mut self, more: &str)
        requires { length self.old + length more.now ≤ min ROOM 255 }
        ensures { self.new ≡ self.old ++ more.now }
    {
        let start = self.len as usize;
        let end = start + more.len();
        let bytes = &mut self.bytes[..];
        bytes[start..end].copy_from_slice(more.as_bytes());
        self.len = end as u8;
    }

    /// Empties the text.
    #[inline]
    pub(crate) fn clear(&mut self)
        ensures { self.new ≡ [] }
    {
        self.len = 0;
    }
}
