//! Handles of nodes.

use std::marker::Model;
use std::mem::size_of;

/// A handle of a node in an `RcDom`: its number, in the order of creation.
///
/// The document node has the number 0, which is the default.
#[derive(Clone, Copy, Debug, Default, PartialEq, Eq)]
pub struct Handle {
    number: usize,
}

impl Model for Handle {
    ghost use Rattle.std.specs.Prelude.{ℕ};

    ghost Value = { ℕ };

    ghost view = { λ h. h.number };

    ghost inverse = { λ n. record { number = n } };
}

impl Handle {
    ghost use Rattle.std.specs.Prelude.{◌≡◌};

    /// Returns the handle of the node with this number.
    #[inline]
    pub fn new(number: usize) -> Handle
        ensures { result ≡ number }
    {
        Handle { number }
    }

    /// Returns the node's number.
    #[inline]
    pub fn number(self) -> usize
        ensures { result ≡ self }
    {
        self.number
    }
}

/// A handle or none, in 8 bytes. An `Option<Handle>` takes 16.
///
/// In contracts, it is the `Option` that [`get`](OptionalHandle::get) returns.
#[derive(Clone, Copy)]
pub struct OptionalHandle {
    /// 0 for none; otherwise one more than the node's number.
    number: usize,
}

const _: () = prove!(size_of::<OptionalHandle>() == 8);

impl Model for OptionalHandle {
    ghost use Rattle.std.specs.Prelude.{ℕ, Option};
    ghost use Rattle.html_render_dom_nodes.specs.Handles.{handle_in, number_for};
    ghost use Rattle.html_render_dom_nodes.specs.laws.Handles.{number_kept};

    ghost Value = { Option ℕ };

    ghost view = { λ h. handle_in h.number };

    ghost inverse = { λ h. record { number = number_for h } };

    ghost inverse_ok = { λ h _ i. record { number = number_kept h.number i } };
}

impl OptionalHandle {
    ghost use Rattle.std.specs.Prelude.{◌≡◌, ◌+◌, ◌^◌, ◌<◌, None, Some};
    ghost use Rattle.std.specs.Option.{ForSome};

    /// Stores no handle.
    #[inline]
    pub(crate) fn none() -> OptionalHandle
        ensures { result ≡ None }
    {
        OptionalHandle { number: 0 }
    }

    /// Stores a handle.
    #[inline]
    pub(crate) fn some(handle: Handle) -> OptionalHandle
        requires { handle + 1 < 2 ^ 64 }
        ensures { result ≡ Some handle }
    {
        OptionalHandle {
            number: handle.number() + 1,
        }
    }

    /// Stores a handle, if any.
    #[inline]
    pub(crate) fn of(handle: Option<Handle>) -> OptionalHandle
        requires { ForSome handle (λ h. h + 1 < 2 ^ 64) }
        ensures { result ≡ handle }
    {
        match handle {
            Some(handle) => OptionalHandle::some(handle),
            None => OptionalHandle::none(),
        }
    }

    /// Returns the handle, if any.
    #[inline]
    pub fn get(self) -> Option<Handle>
        ensures { result ≡ self }
    {
        if self.number == 0 {
            None
        } else {
            Some(Handle::new(self.number - 1))
        }
    }
}
