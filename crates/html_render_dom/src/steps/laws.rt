//! Laws of the document that steps build.

ghost use Rattle.std.specs.Prelude.{◌≡◌, ℕ, ◌<◌, List, Some, slice_get, take};
ghost use Rattle.html_render_dom.specs.Dom.{Dom};
ghost use Rattle.html_render_dom.specs.Steps.{Allows, AreStepsOf, IsFaultyStep, begun, built_by, kind_of};

use super::step::Step;

/// States that steps build at most one document and have at most one faulty step, never both. Each step of a document, and
/// each before the faulty one, can be taken after the steps before it.
fn steps_have_one_outcome()
    ensures one_document { (text : List ℕ) (steps : List Step) (x y : Dom) → AreStepsOf text steps x → AreStepsOf text steps y → x ≡ y }
    ensures no_faulty_step { (text : List ℕ) (steps : List Step) (dom : Dom) (number : ℕ) → AreStepsOf text steps dom → ¬ IsFaultyStep text steps number }
    ensures one_faulty_step { (text : List ℕ) (steps : List Step) (x y : ℕ) → IsFaultyStep text steps x → IsFaultyStep text steps y → x ≡ y }
    ensures document_takes { (text : List ℕ) (steps : List Step) (dom : Dom) → AreStepsOf text steps dom → (n : ℕ) (step : Step) →
        slice_get steps n ≡ Some step → Allows text step (kind_of step.kind) (built_by text (take n steps) begun) }
    ensures faulty_takes { (text : List ℕ) (steps : List Step) (number : ℕ) → IsFaultyStep text steps number → (n : ℕ) → n < number →
        (step : Step) → slice_get steps n ≡ Some step → Allows text step (kind_of step.kind) (built_by text (take n steps) begun) }
{}
