//! Laws of the definitions. Each is the contract of an empty function.

ghost use Rattle.std.specs.Prelude.{◌≡◌, ◌++◌, ◌∷◌, [], ℕ, List, nat_eq, option_map};
ghost use Rattle.std.specs.List.{IsDistinct};
ghost use Rattle.html_render_dom.specs.Dom.{Dom, IsForest, IsNode, children_at, tree_of, trees_of};
ghost use Rattle.html_render_dom_styles.specs.Rules.{Rule as StyleRule};
ghost use Rattle.html_render_layout_nodes.specs.Preorder.{flatten};
ghost use Rattle.html_render_tree_convert.specs.Results.{render_tree_of};
ghost use Rattle.html_render_tree_convert.specs.declared.mapping.ElementKind.{ElementKind};
ghost use Rattle.html_render_tree_convert.specs.Events.{Close, children_events, events};
ghost use Rattle.html_render_tree_convert.specs.Steps.{converted};
ghost use Rattle.html_render_tree_convert.specs.Visits.{first_pick, followed, visited, visits_events};
ghost use Rattle.html_render_tree_walk.specs.Walk.{coming, entered};
ghost use Rattle.html_render_tree_walk.specs.declared.cursor.Position.{Position};
ghost use Rattle.html_render_tree_walk.specs.declared.cursor.Visit.TheVariants.{Node};
ghost use Rattle.html_render_tree_convert.specs.declared.plans.Plan.{Plan};

/// States that the walk's steps write the render tree of the definition, in pre-order, and nothing where that is `None`.
#[tactic(auto, using(crate::proofs::Running::documents_convert))]
fn steps_write_the_render_tree()
    ensures { (rules : List StyleRule) (dom : Dom) → converted rules (tree_of dom 0) ≡ option_map flatten (render_tree_of rules dom) }
{}

/// States that entering an element adds the events of its children and its end to what comes: of a table captions first, then
/// all others, then feet.
fn entering_adds_the_events_of_children()
    ensures { (rules : List StyleRule) (dom : Dom) → IsForest dom → (h : ℕ) → IsNode dom h → (kind : ElementKind) (ps : List Position) →
        visits_events rules dom (coming dom (entered h (first_pick kind) ∷ ps))
        ≡ (children_events kind (λ pick. events rules (trees_of dom (children_at dom h)) pick) ++ (Close ∷ []))
        ++ visits_events rules dom (coming dom ps) }
{}

/// States that a walk over a document meets no node twice, however many visits it makes.
#[tactic(auto, using(crate::proofs::VisitsLeft::no_node_twice))]
fn walks_meet_no_node_twice()
    ensures { (rules : List StyleRule) (dom : Dom) → IsForest dom → (n : ℕ) → IsDistinct nat_eq (visited n rules dom (Node 0 ∷ [])) }
{}

/// States that a visit of a node leaves what comes as it is, and adds in front of it what comes in the node.
#[tactic(auto, using(crate::proofs::VisitsLeft::followed_append))]
fn visits_add_in_front()
    ensures { (dom : Dom) (plan : Plan) (h : ℕ) (ps : List Position) →
        coming dom (followed plan h ps) ≡ coming dom (followed plan h []) ++ coming dom ps }
{}
