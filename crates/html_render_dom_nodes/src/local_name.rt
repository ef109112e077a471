//! Local names of elements and attributes, in 16 bytes.

ghost use Rattle.std.specs.Prelude.{◌≡◌, ◌≤◌, ◌↔◌, IfOk, IfSome, IsSome, length};
ghost use Rattle.std.specs.Str.{bytes_eq};
ghost use Rattle.std.specs.Cmp.{partial_equiv_from_equiv};
ghost use Rattle.std.specs.Cmp.Lexicographic.{nat_list_eq_equiv};

use crate::names::is_same_name;
use std::alloc::{AllocError, Global};
use std::marker::Model;
use std::mem::size_of;
use std::{fmt, str};

/// Maximum length in bytes of a name that is stored inline.
const INLINE_MAX: usize = 14;

/// A name of at most `INLINE_MAX` bytes, in the value itself.
///
/// In contracts, a name is its bytes.
#[derive(Drop)]
struct InlineName {
    /// Length of the name in bytes.
    len: u8,
    /// The name in UTF-8, and then bytes of any value.
    bytes: [u8; INLINE_MAX],
}

impl Model for InlineName {
    ghost use Rattle.std.specs.Prelude.{◌≤◌, List, ℕ, take, IsUtf8};

    ghost Value = { List ℕ };

    ghost view = { λ n. take n.len n.bytes };

    ghost invariant = { λ n. (n.len ≤ 14) × ∥ IsUtf8 (take n.len n.bytes) ∥₁ };
}

impl InlineName {
    /// Returns a copy of the name, or `None` if it is longer than `INLINE_MAX` bytes.
    #[inline]
    fn try_from_str(name: &str) -> Option<InlineName>
        ensures variant { IsSome result ↔ (length name.now ≤ 14) }
        ensures some { IfSome result (λ copy. copy ≡ name.now) }
    {
        let len = name.len();
        if len > INLINE_MAX {
            return None;
        }
        let mut bytes = [0; INLINE_MAX];
        bytes[..len].copy_from_slice(name.as_bytes());
        Some(InlineName {
            bytes,
            len: len as u8,
        })
    }

    /// Returns a copy of the name.
    #[inline]
    fn copied(&self) -> InlineName
        ensures { result ≡ self.now }
    {
        InlineName {
            bytes: self.bytes,
            len: self.len,
        }
    }

    /// Borrows the name.
    #[inline]
    fn as_str(&self) -> &str
        ensures { result.now ≡ self.now }
    {
        unsafe { str::from_utf8_unchecked(&self.bytes[..self.len as usize]) }
    }
}

/// Storage of a name's bytes.
#[derive(Drop)]
enum NameBytes {
    /// At most `INLINE_MAX` bytes, inline.
    Short(InlineName),
    /// Bytes of any number, in an allocation.
    Long(Box<String>),
}

/// A name within its namespace. Up to 14 bytes are stored without an allocation.
///
/// In contracts, a name is its bytes.
#[derive(Drop)]
pub struct LocalName {
    bytes: NameBytes,
}

const _: () = prove!(size_of::<LocalName>() == 16);

impl Model for LocalName {
    ghost use Rattle.std.specs.Prelude.{List, ℕ};
    ghost use Rattle.html_render_dom_nodes.specs.LocalNames.{bytes_in};

    ghost Value = { List ℕ };

    ghost view = { λ n. bytes_in n.bytes };
}

impl Clone for LocalName {
    ghost is_clone = { λ a b. b ≡ a };

    fn clone(&self) -> Result<LocalName, AllocError> {
        let bytes = match &self.bytes {
            NameBytes::Short(bytes) => NameBytes::Short(bytes.copied()),
            NameBytes::Long(bytes) => NameBytes::Long(bytes.clone()?),
        };
        Ok(LocalName { bytes })
    }
}

impl PartialEq for LocalName {
    ghost eq = { bytes_eq };

    ghost laws = { partial_equiv_from_equiv nat_list_eq_equiv };

    fn eq(&self, other: &LocalName) -> bool {
        is_same_name(self.as_str(), other.as_str())
    }
}

impl Eq for LocalName {
    ghost laws = { nat_list_eq_equiv };
}

impl fmt::Debug for LocalName {
    fn fmt<W: fmt::Write>(&self, f: &mut fmt::Formatter<W>) -> fmt::Result {
        fmt::Debug::fmt(self.as_str(), f)
    }
}

impl LocalName {
    /// Returns a copy of `name`. Up to 14 bytes need no allocation.
    ///
    /// # Errors
    ///
    /// `AllocError`, if an allocation is refused.
    #[inline]
    pub fn from_str(alloc: Global, name: &str) -> Result<LocalName, AllocError>
        ensures { IfOk result (λ copy. copy ≡ name.now) }
    {
        if let Some(short) = InlineName::try_from_str(name) {
            return Ok(LocalName {
                bytes: NameBytes::Short(short),
            });
        }
        let long = String::from_str(alloc, name)?;
        Ok(LocalName {
            bytes: NameBytes::Long(Box::new(alloc, long)?),
        })
    }

    /// Borrows the name.
    #[inline]
    pub fn as_str(&self) -> &str
        ensures { result.now ≡ self.now }
    {
        match &self.bytes {
            NameBytes::Short(bytes) => bytes.as_str(),
            NameBytes::Long(bytes) => bytes.as_str(),
        }
    }
}
