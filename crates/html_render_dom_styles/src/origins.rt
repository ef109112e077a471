//! Origins of rules: `StyleOrigin::Agent < StyleOrigin::Author`.

ghost use Rattle.std.specs.Prelude.{◌≡◌};
ghost use Rattle.html_render_dom_styles.specs.Cascade.{rank_of};

/// The origin of a rule: CSS Cascading and Inheritance Level 3, section 6, "Cascading Origins".
///
/// The order is that of normal declarations: `None`, `Agent`, `User`, `Author`. Among important declarations it is reversed.
#[derive(Clone, Copy, Debug, Default, PartialEq, Eq, PartialOrd)]
pub enum StyleOrigin {
    /// No origin.
    #[default]
    None,
    /// The user agent's rules.
    Agent,
    /// The user's rules.
    User,
    /// The rules of the document's author.
    Author,
}

impl StyleOrigin {
    /// Returns the rank of declarations of this origin, from 0 to 3. Of two declarations of equal importance, the one with
    /// the greater rank wins.
    pub(super) fn rank(self, important: bool) -> u8
        ensures { result ≡ rank_of important self }
    {
        let normal = match self {
            StyleOrigin::None => 0,
            StyleOrigin::Agent => 1,
            StyleOrigin::User => 2,
            StyleOrigin::Author => 3,
        };
        if important { 3 - normal } else { normal }
    }
}
