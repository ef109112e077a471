//! Texts that need no allocation while they are short, and whose clones copy nothing while they are not long.
//!
//! `SmallText::<16>::from_str(alloc, "div")?` is the text `div`, without an allocation. A clone is the same value as its
//! source.

ghost use Rattle.std.specs.Prelude.{◌≡◌, ◌++◌, [], List, ℕ, IfOk, OnOk, OnErr, encode_utf8, length, string_bytes};
ghost use Rattle.std.specs.Str.{bytes_eq};
ghost use Rattle.std.specs.Cmp.{partial_equiv_from_equiv};
ghost use Rattle.std.specs.Cmp.Lexicographic.{nat_list_eq_equiv};
ghost use Rattle.html_render_dom_values.specs.SmallText.{bytes_in};

use crate::inline_text::InlineText;
use std::alloc::{AllocError, Global};
use std::fmt;
use std::marker::Model;
use std::mem::size_of;
use std::sync::Arc;

/// Room for further bytes, in bytes, of a text that moves to an allocation because it grows.
const MORE: usize = 32;

/// Maximum length in bytes of a text that shares its allocation with its clones. With the length and the number of owners, the
/// allocation has at most 88 bytes.
const SHARED_MAX: usize = 79;

/// Storage of a text's bytes.
#[derive(Drop)]
enum Bytes<const SHORT: usize> {
    /// At most `SHORT` bytes, inline.
    Short(InlineText<SHORT>),
    /// At most `SHARED_MAX` bytes, in an allocation that clones share.
    Shared(Arc<InlineText<SHARED_MAX>>),
    /// Bytes of any number, in an allocation of their own.
    Long(String),
}

/// Text with room for `SHORT` bytes inline, at most 255. It moves to an allocation when it needs more room, and stays
/// there. A longer text of at most 79 bytes that was created whole shares its allocation with its clones, until it changes.
///
/// In contracts, a text is its bytes.
#[derive(Drop)]
pub struct SmallText<const SHORT: usize> {
    bytes: Bytes<SHORT>,
}

// 30 bytes inline take no more than a `String`: with the tag of the storage, 32 bytes.
const _: () = prove!(size_of::<SmallText<30>>() == 32);

impl<const SHORT: usize> Model for SmallText<SHORT> {
    ghost Value = { List ℕ };

    ghost view = { λ t. bytes_in t.bytes };
}

impl<const SHORT: usize> Clone for SmallText<SHORT> {
    ghost is_clone = { λ a b. b ≡ a };

    #[inline]
    fn clone(&self) -> Result<SmallText<SHORT>, AllocError> {
        match &self.bytes {
            Bytes::Short(bytes) => Ok(SmallText {
                bytes: Bytes::Short(bytes.copied()),
            }),
            _ => self.clone_outside(),
        }
    }
}

impl<const SHORT: usize> PartialEq for SmallText<SHORT> {
    ghost eq = { bytes_eq };

    ghost laws = { partial_equiv_from_equiv nat_list_eq_equiv };

    fn eq(&self, other: &SmallText<SHORT>) -> bool {
        self.as_str() == other.as_str()
    }
}

impl<const SHORT: usize> Eq for SmallText<SHORT> {
    ghost laws = { nat_list_eq_equiv };
}

impl<const SHORT: usize> fmt::Debug for SmallText<SHORT> {
    fn fmt<W: fmt::Write>(&self, f: &mut fmt::Formatter<W>) -> fmt::Result {
        fmt::Debug::fmt(self.as_str(), f)
    }
}

impl<const SHORT: usize> From<String> for SmallText<SHORT> {
    ghost from_gives = { λ string text. text ≡ string_bytes string };

    /// Converts a string without an allocation: up to `SHORT` bytes are copied inline, a longer string is taken as it is.
    fn from(string: String) -> SmallText<SHORT> {
        if let Some(short) = InlineText::try_from_str(string.as_str()) {
            return SmallText {
                bytes: Bytes::Short(short),
            };
        }
        SmallText {
            bytes: Bytes::Long(string),
        }
    }
}

impl<const SHORT: usize> SmallText<SHORT> {
    /// Returns a copy of `text`. Up to `SHORT` bytes need no allocation.
    ///
    /// # Errors
    ///
    /// `AllocError`, if an allocation is refused.
    #[inline]
    pub fn from_str(alloc: Global, text: &str) -> Result<SmallText<SHORT>, AllocError>
        ensures { IfOk result (λ t. t ≡ text.now) }
    {
        match InlineText::try_from_str(text) {
            Some(short) => Ok(SmallText {
                bytes: Bytes::Short(short),
            }),
            None => SmallText::outside(alloc, text),
        }
    }

    /// Returns a copy of `text` in an allocation.
    #[inline(never)]
    fn outside(alloc: Global, text: &str) -> Result<SmallText<SHORT>, AllocError>
        ensures { IfOk result (λ t. t ≡ text.now) }
    {
        let bytes = match InlineText::try_from_str(text) {
            Some(shared) => Bytes::Shared(Arc::new(alloc, shared)?),
            None => Bytes::Long(String::from_str(alloc, text)?),
        };
        Ok(SmallText { bytes })
    }

    /// Returns a clone of a text in an allocation.
    #[inline(never)]
    fn clone_outside(&self) -> Result<SmallText<SHORT>, AllocError>
        ensures { IfOk result (λ t. t ≡ self.now) }
    {
        let bytes = match &self.bytes {
            Bytes::Short(bytes) => Bytes::Short(bytes.copied()),
            Bytes::Shared(bytes) => Bytes::Shared(Arc::try_clone(bytes)?),
            Bytes::Long(bytes) => Bytes::Long(bytes.clone()?),
        };
        Ok(SmallText { bytes })
    }

    /// Borrows the text.
    pub fn as_str(&self) -> &str
        ensures { result.now ≡ self.now }
    {
        match &self.bytes {
            Bytes::Short(bytes) => bytes.as_str(),
            Bytes::Shared(bytes) => bytes.as_str(),
            Bytes::Long(bytes) => bytes.as_str(),
        }
    }
}

impl<const SHORT: usize> SmallText<SHORT> {
    /// Returns an empty text, without an allocation.
    #[inline]
    pub fn new() -> SmallText<SHORT>
        ensures { result ≡ [] }
    {
        SmallText {
            bytes: Bytes::Short(InlineText::new()),
        }
    }

    /// Returns an empty text with room for `bytes` bytes. Room for up to `SHORT` bytes needs no allocation.
    ///
    /// # Errors
    ///
    /// `AllocError`, if an allocation is refused.
    #[inline]
    pub fn with_capacity(alloc: Global, bytes: usize) -> Result<SmallText<SHORT>, AllocError>
        ensures { IfOk result (λ t. t ≡ []) }
    {
        if bytes <= InlineText::<SHORT>::capacity() {
            return Ok(SmallText::new());
        }
        let text = String::with_capacity(alloc, bytes)?;
        Ok(SmallText {
            bytes: Bytes::Long(text),
        })
    }

    /// Returns the length of the text in bytes.
    #[inline]
    pub fn len(&self) -> usize
        ensures { result ≡ length self.now }
    {
        self.as_str().len()
    }

    /// Empties the text. Its allocation, if it has one of its own, is kept.
    #[inline]
    pub fn clear(&mut self)
        ensures { self.new ≡ [] }
    {
        match &mut self.bytes {
            Bytes::Short(text) => text.clear(),
            Bytes::Shared(_) => self.bytes = Bytes::Short(InlineText::new()),
            Bytes::Long(text) => text.clear(),
        }
    }

    /// Returns a string of `front`, this text and `back`, with room for `room` more bytes.
    fn between(
        &self,
        alloc: Global,
        front: &str,
        back: &str,
        room: usize,
    ) -> Result<String, AllocError>
        ensures { IfOk result (λ s. string_bytes s ≡ (front.now ++ self.now) ++ back.now) }
    {
        let own = self.as_str();
        let bytes = front.len().saturating_add(back.len());
        let mut text = String::with_capacity(
            alloc,
            bytes.saturating_add(own.len()).saturating_add(room),
        )?;
        text.push_str(front)?;
        text.push_str(own)?;
        text.push_str(back)?;
        Ok(text)
    }

    /// Replaces this text by `text`, in the allocation of `text`.
    fn hold(&mut self, text: String)
        ensures { self.new ≡ string_bytes text }
    {
        self.bytes = Bytes::Long(text);
    }

    /// Moves the text to a new allocation with room for `bytes` more bytes.
    #[inline(never)]
    fn move_out(&mut self, alloc: Global, bytes: usize) -> Result<(), AllocError>
        ensures { self.new ≡ self.old }
    {
        let text = self.between(alloc, "", "", bytes)?;
        self.hold(text);
        Ok(())
    }

    /// Reserves room for `bytes` more bytes.
    ///
    /// # Errors
    ///
    /// `AllocError`, if an allocation is refused. The text is unchanged then.
    #[inline]
    pub fn reserve(&mut self, alloc: Global, bytes: usize) -> Result<(), AllocError>
        ensures { self.new ≡ self.old }
    {
        match &mut self.bytes {
            Bytes::Long(text) => return text.reserve(bytes),
            Bytes::Shared(_) => {}
            Bytes::Short(text) => {
                if bytes <= text.remaining_capacity() {
                    return Ok(());
                }
            }
        }
        self.move_out(alloc, bytes)
    }

    /// Appends a text and moves the whole to a new allocation.
    #[inline(never)]
    fn push_long(&mut self, alloc: Global, more: &str) -> Result<(), AllocError>
        ensures ok { OnOk result (self.new ≡ self.old ++ more.now) }
        ensures err { OnErr result (self.new ≡ self.old) }
    {
        let text = self.between(alloc, "", more, MORE)?;
        self.hold(text);
        Ok(())
    }

    /// Appends a text.
    ///
    /// # Errors
    ///
    /// `AllocError`, if an allocation is refused. The text is unchanged then.
    #[inline]
    pub fn push_str(&mut self, alloc: Global, more: &str) -> Result<(), AllocError>
        ensures ok { OnOk result (self.new ≡ self.old ++ more.now) }
        ensures err { OnErr result (self.new ≡ self.old) }
    {
        match &mut self.bytes {
            Bytes::Long(text) => return text.push_str(more),
            Bytes::Shared(_) => {}
            Bytes::Short(text) => {
                if more.len() <= text.remaining_capacity() {
                    text.push_str(more);
                    return Ok(());
                }
            }
        }
        self.push_long(alloc, more)
    }

    /// Appends a character, in UTF-8.
    ///
    /// # Errors
    ///
    /// `AllocError`, if an allocation is refused. The text is unchanged then.
    #[inline]
    pub fn push(&mut self, alloc: Global, c: char) -> Result<(), AllocError>
        ensures ok { OnOk result (self.new ≡ self.old ++ encode_utf8 c) }
        ensures err { OnErr result (self.new ≡ self.old) }
    {
        if let Bytes::Long(text) = &mut self.bytes {
            return text.push(c);
        }
        let mut buffer = [0; 4];
        self.push_str(alloc, c.encode_utf8(&mut buffer))
    }

    /// Inserts a text at the start.
    ///
    /// # Errors
    ///
    /// `AllocError`, if an allocation is refused. The text is unchanged then.
    #[inline]
    pub fn put_front(&mut self, alloc: Global, front: &str) -> Result<(), AllocError>
        ensures ok { OnOk result (self.new ≡ front.now ++ self.old) }
        ensures err { OnErr result (self.new ≡ self.old) }
    {
        match &mut self.bytes {
            Bytes::Long(text) => return text.insert_str(0, front),
            Bytes::Shared(_) => {}
            Bytes::Short(text) => {
                if front.len() <= text.remaining_capacity() {
                    let mut all = InlineText::new();
                    all.push_str(front);
                    all.push_str(text.as_str());
                    *text = all;
                    return Ok(());
                }
            }
        }
        let text = self.between(alloc, front, "", MORE)?;
        self.hold(text);
        Ok(())
    }
}
