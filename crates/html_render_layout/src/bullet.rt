//! The bullet of a list, in 16 bytes: an open list keeps it for its items.

ghost use Rattle.std.specs.Prelude.{◌≡◌, IfOk, IfSome, string_bytes};
ghost use Rattle.html_render_dom_values.specs.Outcome.{OnlyOutOfMemory};
ghost use Rattle.html_render_layout_estimates.specs.Estimates.{prefix_columns};

use html_render_dom_values::Error;
use html_render_layout_estimates::text::columns;
use std::alloc::Global;
use std::marker::Model;
use std::mem::size_of;
use std::str;

/// Maximum length in bytes of a bullet that is stored inline.
const INLINE_MAX: usize = 13;

/// A bullet of at most `INLINE_MAX` bytes and 255 columns, in the value itself.
///
/// In contracts, a bullet is its bytes.
#[derive(Drop)]
struct InlineBullet {
    /// The bullet in UTF-8, and then bytes of any value.
    bytes: [u8; INLINE_MAX],
    /// Length of the bullet in bytes.
    len: u8,
    /// Columns of the bullet.
    columns: u8,
}

impl Model for InlineBullet {
    ghost use Rattle.std.specs.Prelude.{◌≡◌, ◌≤◌, List, ℕ, take, IsUtf8};
    ghost use Rattle.html_render_layout_estimates.specs.Estimates.{prefix_columns};

    ghost Value = { List ℕ };

    ghost view = { λ b. take b.len b.bytes };

    ghost invariant = { λ b. (b.len ≤ 13) × (b.columns ≡ prefix_columns (take b.len b.bytes)) × ∥ IsUtf8 (take b.len b.bytes) ∥₁ };
}

impl InlineBullet {
    /// Returns a copy of a bullet; `None` if it has more than `INLINE_MAX` bytes or 255 columns.
    fn try_from_str(bullet: &str) -> Option<InlineBullet>
        ensures { IfSome result (λ copy. copy ≡ bullet.now) }
    {
        let len = bullet.len();
        if len > INLINE_MAX {
            return None;
        }
        let Ok(columns) = u8::try_from(columns(bullet)) else {
            return None;
        };
        let mut bytes = [0; INLINE_MAX];
        bytes[..len].copy_from_slice(bullet.as_bytes());
        Some(InlineBullet {
            bytes,
            len: len as u8,
            columns,
        })
    }

    /// Borrows the bullet.
    #[inline]
    fn as_str(&self) -> &str
        ensures { result.now ≡ self.now }
    {
        unsafe { str::from_utf8_unchecked(&self.bytes[..self.len as usize]) }
    }

    /// Returns the columns of the bullet.
    #[inline]
    fn columns(&self) -> usize
        ensures { result ≡ prefix_columns self.now }
    {
        self.columns as usize
    }
}

/// Storage of a bullet.
#[derive(Drop)]
enum BulletBytes {
    /// At most `INLINE_MAX` bytes and 255 columns, inline.
    Short(InlineBullet),
    /// Any other bullet, in an allocation.
    Long(Box<String>),
}

/// The bullet of a list. Up to 13 bytes are stored without an allocation.
///
/// In contracts, a bullet is its bytes.
#[derive(Drop)]
pub struct Bullet {
    bytes: BulletBytes,
}

const _: () = prove!(size_of::<Bullet>() == 16);

impl Model for Bullet {
    ghost use Rattle.std.specs.Prelude.{List, ℕ};
    ghost use Rattle.html_render_layout.specs.Bullets.{bytes_in};

    ghost Value = { List ℕ };

    ghost view = { λ b. bytes_in b.bytes };
}

impl Bullet {
    /// Returns a bullet with the text of a decorator.
    ///
    /// # Errors
    ///
    /// `OutOfMemory`.
    pub fn new(alloc: Global, text: String) -> Result<Bullet, Error>
        ensures ok { IfOk result (λ bullet. bullet ≡ string_bytes text) }
        ensures err { OnlyOutOfMemory result }
    {
        if let Some(short) = InlineBullet::try_from_str(text.as_str()) {
            return Ok(Bullet {
                bytes: BulletBytes::Short(short),
            });
        }
        Ok(Bullet {
            bytes: BulletBytes::Long(Box::new(alloc, text)?),
        })
    }

    /// Borrows the bullet.
    #[inline]
    pub fn as_str(&self) -> &str
        ensures { result.now ≡ self.now }
    {
        match &self.bytes {
            BulletBytes::Short(bullet) => bullet.as_str(),
            BulletBytes::Long(bullet) => bullet.as_str(),
        }
    }

    /// Returns the columns of the bullet.
    #[inline]
    pub fn columns(&self) -> usize
        ensures { result ≡ prefix_columns self.now }
    {
        match &self.bytes {
            BulletBytes::Short(bullet) => bullet.columns(),
            BulletBytes::Long(bullet) => columns(bullet.as_str()),
        }
    }
}
