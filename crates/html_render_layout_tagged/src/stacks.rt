//! Table of annotation stacks, indexed by tags.
//!
//! After `stacks.push(0, "a")?` and `stacks.push(1, "b")?`, the stack of tag 0 is empty, that of tag 1 is `a`, and that of
//! tag 2 is `a` and `b`.

ghost use Rattle.std.specs.Prelude.{◌≡◌, ◌<◌, ◌≤◌, [], ◌∷◌, ◌++◌, ◌==◌, ◌&&◌, length, IfOk, OnOk, MatchOption};
ghost use Rattle.std.specs.Cmp.Lexicographic.{pointwise};
ghost use Rattle.html_render_dom_values.specs.Outcome.{OnlyOutOfMemory};
ghost use Rattle.html_render_layout_tagged.specs.Stacks.{stack_at, IsStack};

use html_render_dom_values::Error;
use std::alloc::Global;
use std::marker::Model;

/// Annotation stack: a stack below, and one annotation on top.
#[derive(Drop)]
pub struct Pushed<A> {
    /// Tag of the stack below.
    pub below: usize,
    /// Annotation on top, the innermost.
    pub annotation: A,
    /// Number of annotations, the one on top included.
    pub depth: usize,
}

/// Table of annotation stacks. A tag is the index of one; tag 0 is the empty stack.
///
/// A stack is stored as its top and the tag of the stack below, so its memory doesn't depend on its depth.
#[derive(Drop)]
pub struct Stacks<A> {
    /// Stacks in the order in which they were pushed, without the empty one: tag `n` is at index `n - 1`.
    pushed: Vec<Pushed<A>>,
}

impl<A> Model for Stacks<A> {
    ghost use Rattle.std.specs.Prelude.{List};
    ghost use Rattle.std.specs.Prelude.{[], ◌∷◌};
    ghost use Rattle.html_render_layout_tagged.specs.Stacks.{stacks_of, ArePushed};

    ghost Value = { List (List A) };

    ghost view = { λ s. stacks_of s.pushed.items };

    ghost invariant = { λ s. ArePushed ([] ∷ []) s.pushed.items };
}

impl<A: Drop> Stacks<A> {
    /// Returns a table with the empty stack alone, without an allocation.
    pub fn new(alloc: Global) -> Stacks<A>
        ensures { result ≡ [] ∷ [] }
    {
        Stacks {
            pushed: Vec::new(alloc),
        }
    }

    /// Adds the stack of the tag `below` with `annotation` on top, and returns its tag. If the table has no such tag, the
    /// stack below is empty.
    ///
    /// # Errors
    ///
    /// `OutOfMemory`.
    pub fn push(&mut self, below: usize, annotation: A) -> Result<usize, Error>
        ensures tag { IfOk result (λ tag. tag ≡ length self.old) }
        ensures ok { OnOk result (self.new ≡ self.old ++ (stack_at self.old below ++ annotation ∷ []) ∷ []) }
        ensures err { OnlyOutOfMemory result }
    {
        let tag = self.pushed.len() + 1;
        let below = self.kept(below);
        let depth = self.depth(below) + 1;
        self.pushed.push(Pushed {
            below,
            annotation,
            depth,
        })?;
        Ok(tag)
    }

    /// Returns the tag if the table has it, and otherwise 0, the tag of the empty stack.
    fn kept(&self, tag: usize) -> usize
        ensures same { stack_at self.now result ≡ stack_at self.now tag }
        ensures within { result < length self.now }
    {
        if tag <= self.pushed.len() { tag } else { 0 }
    }

    /// Returns the top of a tag's stack; `None` if that is empty or the table has no such tag.
    pub fn top(&self, tag: usize) -> Option<&Pushed<A>>
        ensures { MatchOption result (stack_at self.now tag ≡ []) (λ p. IsStack self.now tag p.now) }
    {
        let pushed = self.pushed.as_slice();
        if tag == 0 {
            return None;
        }
        pushed.get(tag - 1)
    }

    /// Returns the number of annotations in a tag's stack; 0 if the table has no such tag.
    pub fn depth(&self, tag: usize) -> usize
        ensures count { result ≡ length (stack_at self.now tag) }
        ensures within { result ≤ tag }
    {
        match self.top(tag) {
            Some(top) => top.depth,
            None => 0,
        }
    }
}

impl<A: Eq + Drop> Stacks<A> {
    /// Whether the stacks of two tags have equal annotations, one by one by `Eq`. Compares no more than the annotations
    /// above the stack on which both were pushed.
    pub fn are_equal(&self, left: usize, right: usize) -> bool
        ensures { result ≡ pointwise A.eq (stack_at self.now left) (stack_at self.now right) }
    {
        let (mut left, mut right) = (left, right);
        while left != right {
            let Some(above) = self.top(left) else {
                return self.top(right).is_none();
            };
            let Some(other) = self.top(right) else {
                return false;
            };
            if !is_like(above, other) {
                return false;
            }
            left = above.below;
            right = other.below;
        }
        true
    }
}

/// Whether two stacks have the same depth and equal annotations on top.
fn is_like<A: Eq>(above: &Pushed<A>, other: &Pushed<A>) -> bool
    ensures { result ≡ ((above.now.depth == other.now.depth) && A.eq above.now.annotation other.now.annotation) }
{
    above.depth == other.depth && above.annotation == other.annotation
}
