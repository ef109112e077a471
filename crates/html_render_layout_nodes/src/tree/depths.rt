//! Depths of the nodes of a render tree, found one after another without an allocation.

ghost use Rattle.std.specs.Prelude.{◌≡◌, ◌↔◌, ◌+◌, ◌-◌, ◌<◌, ◌≤◌, ℕ, List, [], ◌∷◌, ◌++◌, drop, length, reverse, IsTrue};
ghost use Rattle.html_render_layout_nodes.specs.Depths.{ends_open_at, open_at, with_part, EndsAt, Keeps};

use super::{Entry, RenderNode};
use arrayvec::ArrayVec;

/// Number of open subtrees whose ends are kept.
const KEPT: usize = 64;

/// Subtrees that are open at a place.
#[derive(Drop)]
pub(super) struct OpenSubtrees {
    /// Number of open subtrees. It is the depth of the node at the place.
    pub(super) depth: usize,
    /// Ends of the innermost open subtrees, the innermost last. At least one is kept if a subtree is open.
    ends: ArrayVec<usize, KEPT>,
}

/// Reports whether the innermost open subtree ends at `place`. `ends` are the ends of the open subtrees, the innermost last.
fn ends_at(ends: &[usize], place: usize) -> bool
    ensures { IsTrue result ↔ EndsAt place (reverse ends.now) }
{
    match ends.last() {
        Some(end) => *end == place,
        None => false,
    }
}

/// Appends an end, and drops the first one if there is no room.
fn keep(ends: &mut ArrayVec<usize, KEPT>, end: usize)
    ensures fits { length ends.old.items ≤ KEPT }
    ensures room { length ends.old.items < KEPT → ends.new.items ≡ ends.old.items ++ end ∷ [] }
    ensures full { length ends.old.items ≡ KEPT → ends.new.items ≡ drop 1 ends.old.items ++ end ∷ [] }
{
    if ends.is_full() {
        ends.remove(0);
    }
    ends.push(end);
}

impl OpenSubtrees {
    /// Creates the state without open subtrees.
    pub(super) fn none() -> OpenSubtrees
        ensures { Keeps result.depth result.ends.items [] }
    {
        OpenSubtrees {
            depth: 0,
            ends: ArrayVec::new(),
        }
    }

    /// Adds the subtree of `size` nodes at `at` as the innermost one, if it ends after `place`.
    pub(super) fn add(&mut self, place: usize, at: usize, size: usize)
        requires { self.old.depth < usize.MAX }
        ensures { (ends : List ℕ) → Keeps self.old.depth self.old.ends.items ends
            → Keeps self.new.depth self.new.ends.items (with_part place at size ends) }
    {
        let end = at.saturating_add(size);
        if place < end {
            keep(&mut self.ends, end);
            self.depth += 1;
        }
    }

    /// Finds the subtrees that are open at `place` among those of the entries before it.
    fn found(before: &[Entry<RenderNode>], place: usize) -> OpenSubtrees
        ensures { Keeps result.depth result.ends.items (open_at place before.now) }
    {
        let mut open = OpenSubtrees::none();
        for (at, entry) in before.iter().enumerate() {
            open.add(place, at, entry.subtree_len);
        }
        open
    }

    /// Removes the subtrees that end at `place`. If none of the kept ends is left, finds those of the innermost open
    /// subtrees in the entries before `place`.
    pub(super) fn leave(&mut self, place: usize, before: &[Entry<RenderNode>])
        requires nested { ends_open_at place (open_at (place - 1) before.now) ≡ open_at place before.now }
        requires kept { Keeps self.old.depth self.old.ends.items (open_at (place - 1) before.now) }
        ensures { Keeps self.new.depth self.new.ends.items (open_at place before.now) }
    {
        'leaving: while ends_at(self.ends.as_slice(), place) {
            self.ends.pop();
            self.depth -= 1;
        }
        if self.depth > 0 && self.ends.is_empty() {
            *self = OpenSubtrees::found(before, place);
        }
    }
}
