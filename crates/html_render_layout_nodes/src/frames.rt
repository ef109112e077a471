//! The open nodes of a walk over a tree in pre-order.

ghost use Rattle.std.specs.Prelude.{◌≡◌, ◌≢◌, List, [], ◌∷◌, ◌++◌, IfSome, IfNone, option_copied};
ghost use Rattle.html_render_layout_nodes.specs.Walk.{innermost};
ghost use Rattle.html_render_layout_nodes.specs.declared.frames.Frame.{Frame};

/// An open node.
#[derive(Drop)]
pub struct Frame<T> {
    /// Index after the last node of its subtree.
    pub end: usize,
    /// Number of its next sibling.
    pub next: usize,
    /// Data that is kept until it is closed.
    pub kept: T,
}

/// Returns the data that is kept for the innermost open node; `None` if no node is open.
#[inline(always)]
pub fn innermost<T: Drop>(frames: &[Frame<T>]) -> Option<&T>
    ensures { option_copied result ≡ innermost frames.now }
{
    match frames.last() {
        Some(frame) => Some(&frame.kept),
        None => None,
    }
}

/// Pops the innermost open node if its subtree ends before the index `at`; otherwise returns `None`.
pub fn pop_over<T: Drop>(frames: &mut Vec<Frame<T>>, at: usize) -> Option<Frame<T>>
    ensures over { IfSome result (λ f. (frames.old.items ≡ frames.new.items ++ f ∷ []) × (f.end ≡ at)) }
    ensures same { IfNone result (frames.new.items ≡ frames.old.items) }
    ensures not_over { IfNone result ((below : List (Frame T)) (f : Frame T) → frames.old.items ≡ below ++ f ∷ [] → f.end ≢ at) }
{
    match frames.last() {
        Some(frame) if frame.end == at => {}
        _ => return None,
    }
    frames.pop()
}
