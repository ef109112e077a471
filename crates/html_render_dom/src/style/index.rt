//! An index of rules by the texts that they state. With it, only few of many rules are tested for an element.

ghost use Rattle.std.specs.Prelude.{◌≡◌, ◌<◌, ◌||◌, ◌&&◌, [], ◌∷◌, ◌++◌, All, filter, find, if◌then◌else◌, IfOk, IfSome, length, List, ℕ, map, OnOk, option_copied, option_map, set, string_bytes, true};
ghost use Rattle.std.specs.List.{Contains};
ghost use Rattle.std.specs.List.Sorted.{IsStrictlyIncreasing};
ghost use Rattle.std.specs.Bool.{OnFalse};
ghost use Rattle.std.specs.Str.{bytes_eq};
ghost use Rattle.html_render_dom_values.specs.Outcome.{OnlyOutOfMemory};
ghost use Rattle.html_render_dom_nodes.specs.Content.{property_of};
ghost use Rattle.html_render_dom.specs.Applying.{style_by};
ghost use Rattle.html_render_dom.specs.ElementStyle.{element_style};
ghost use Rattle.html_render_dom.specs.RuleIndex.{asks_attributes, Finds, Indexes, IsPlain, is_told, text_key, numbers_under, stated_text, texts_of};
ghost use Rattle.html_render_dom_styles.specs.Rules.{Rule, rule_of};
ghost use Rattle.html_render_dom_styles.specs.Selectors.{is_filled};

use super::attributes::first_value;
use super::computed::{ComputedStyle, computed_style, style_of_rules};
use html_render_dom_nodes::{Attribute, is_same_name};
use html_render_dom_styles::StyleRule;
use html_render_dom_values::Error;
use std::alloc::{AllocError, Global};
use std::collections::BTreeMap;

/// Maximum number of rules that are all tested, without a lookup in the index.
const SCANNED_RULES_MAX: usize = 16;

/// Maximum number of names whose elements' style without attributes is computed once.
const PLAIN_STYLES_MAX: usize = 16;

/// Number of keys.
const KEYS: usize = 64;

/// Returns the key of a text, a hash of its length and its first byte that is less than `KEYS`.
fn text_key(text: &str) -> usize
    ensures key { result ≡ text_key text.now }
    ensures small { result < 64 }
{
    let first = match text.as_bytes().first() {
        Some(byte) => *byte as usize,
        None => 0,
    };
    (text.len() % KEYS * 3 + first) % KEYS
}

/// Reports whether the rule states an id or a class.
fn asks_attributes(rule: &StyleRule) -> bool
    ensures { result ≡ asks_attributes (rule_of rule.now) }
{
    rule.id.is_some() || !rule.classes.is_empty()
}

/// Returns the text under which the rule is indexed: its first class, else its id, else its element name.
///
/// An element that the rule selects has this text as a class, as its id or as its local name. Returns `None` if the rule
/// states none of these.
fn stated_text(rule: &StyleRule) -> Option<&String>
    ensures { option_map (λ text. string_bytes text.now) result ≡ stated_text (rule_of rule.now) }
{
    match rule.classes.first() {
        Some(class) => Some(class),
        None => match &rule.id {
            Some(id) => Some(id),
            None => rule.element.as_ref(),
        },
    }
}

/// Style of the elements of a name that have no attributes.
#[derive(Drop)]
struct PlainStyle {
    /// Local name of the elements.
    name: String,
    /// Their style.
    style: ComputedStyle,
}

/// Returns the style of this name, if there is one.
fn find_plain<'a>(plain: &'a [PlainStyle], name: &str) -> Option<&'a PlainStyle>
    ensures { option_copied result ≡ find (λ p. bytes_eq (string_bytes p.name) name.now) plain.now }
{
    plain
        .iter()
        .find(|style| is_same_name(style.name.as_str(), name))
}

/// An index of a list of rules by the texts that they state, so that few of many rules are tested for an element.
#[derive(Drop)]
pub struct RuleIndex {
    /// For each key, whether a rule is indexed under a text with that key. Texts without such a rule, which are most, need
    /// no lookup in `by_text`.
    keys: Vec<bool>,
    /// Numbers of the rules that are indexed under each text, ascending.
    by_text: BTreeMap<String, Vec<usize>>,
    /// Numbers of the rules that state no text, ascending.
    general: Vec<usize>,
    /// Whether any rule states an id or a class.
    asks_attributes: bool,
    /// Styles of elements without attributes, of names that rules state.
    plain: Vec<PlainStyle>,
}

impl RuleIndex {
    /// Creates the index of a list of rules, and computes the styles of elements without attributes once.
    ///
    /// # Errors
    ///
    /// Returns `OutOfMemory` if an allocation is refused.
    pub fn of(alloc: Global, rules: &[StyleRule]) -> Result<RuleIndex, Error>
        ensures ok { IfOk result (λ index. Finds index (map rule_of rules.now)) }
        ensures err { OnlyOutOfMemory result }
    {
        let mut index = RuleIndex::without_styles(alloc, rules)?;
        index.plain = index.plain_styles(alloc, rules)?;
        Ok(index)
    }

    /// Computes the styles of elements without attributes, of the first `PLAIN_STYLES_MAX` names that rules state.
    fn plain_styles(&self, alloc: Global, rules: &[StyleRule]) -> Result<Vec<PlainStyle>, Error>
        requires { Indexes self.now (map rule_of rules.now) }
        ensures ok { IfOk result (λ plain. All (IsPlain (map rule_of rules.now)) plain.items) }
        ensures err { OnlyOutOfMemory result }
    {
        let mut plain = Vec::new(alloc);
        for rule in rules {
            self.add_plain(alloc, rules, rule, &mut plain)?;
        }
        Ok(plain)
    }

    /// Appends the style of elements without attributes of the name that a rule states, unless it is there or there are enough.
    fn add_plain(
        &self,
        alloc: Global,
        rules: &[StyleRule],
        rule: &StyleRule,
        plain: &mut Vec<PlainStyle>,
    ) -> Result<(), Error>
        requires { Indexes self.now (map rule_of rules.now) }
        ensures ok { OnOk result (All (IsPlain (map rule_of rules.now)) plain.old.items → All (IsPlain (map rule_of rules.now)) plain.new.items) }
        ensures err { OnlyOutOfMemory result }
    {
        let Some(name) = &rule.element else {
            return Ok(());
        };
        if plain.len() >= PLAIN_STYLES_MAX {
            return Ok(());
        }
        if find_plain(plain.as_slice(), name.as_str()).is_some() {
            return Ok(());
        }
        let style = self.computed_style(alloc, rules, name.as_str(), &[])?;
        plain.push(PlainStyle {
            name: name.clone()?,
            style,
        })?;
        Ok(())
    }

    /// Returns the style of elements with this local name that have no attributes, if it was computed.
    #[inline]
    pub fn plain_style(&self, element: &str) -> Option<&ComputedStyle>
        ensures { IfSome result (λ style. (rules : List Rule) → Finds self.now rules → style.now ≡ element_style rules element.now []) }
    {
        match find_plain(self.plain.as_slice(), element) {
            Some(plain) => Some(&plain.style),
            None => None,
        }
    }

    /// Creates the index of a list of rules, without the styles of elements without attributes.
    fn without_styles(alloc: Global, rules: &[StyleRule]) -> Result<RuleIndex, AllocError>
        ensures { IfOk result (λ index. Indexes index (map rule_of rules.now)) }
    {
        let mut index = RuleIndex {
            keys: vec![in alloc; false; KEYS]?,
            by_text: BTreeMap::new(alloc),
            general: Vec::new(alloc),
            asks_attributes: false,
            plain: Vec::new(alloc),
        };
        for (number, rule) in rules.iter().enumerate() {
            index.asks_attributes = index.asks_attributes | asks_attributes(rule);
            match stated_text(rule) {
                Some(text) => index.put(text, number)?,
                None => index.general.push(number)?,
            }
        }
        Ok(index)
    }

    /// Adds the number of a rule under a text.
    fn put(&mut self, text: &String, number: usize) -> Result<(), AllocError>
        requires { length self.old.keys.items ≡ 64 }
        ensures keys { OnOk result (self.new.keys.items ≡ set self.old.keys.items (text_key (string_bytes text.now)) true) }
        ensures numbers { OnOk result ((t : List ℕ) → numbers_under self.new t
            ≡ (if bytes_eq t (string_bytes text.now) then numbers_under self.old t ++ number ∷ [] else numbers_under self.old t)) }
        ensures general { OnOk result (self.new.general.items ≡ self.old.general.items) }
        ensures asks { self.new.asks_attributes ≡ self.old.asks_attributes }
    {
        self.keys[text_key(text.as_str())] = true;
        let numbers = self.by_text.entry(text.clone()?)?.or_default();
        numbers.push(number)?;
        Ok(())
    }

    /// Pushes the text, unless its key shows that no rule is indexed under it.
    fn add_told<'a>(&self, text: &'a str, texts: &mut Vec<&'a str>) -> Result<(), AllocError>
        requires { length self.now.keys.items ≡ 64 }
        ensures { OnOk result (map (λ t. t.now) texts.new.items
            ≡ map (λ t. t.now) texts.old.items ++ filter (is_told self.now.keys.items) (text.now ∷ [])) }
    {
        if self.keys[text_key(text)] {
            texts.push(text)?;
        }
        Ok(())
    }

    /// Returns the texts of an element (its local name, id and classes) under which a rule may be indexed.
    fn texts<'a>(
        &self,
        alloc: Global,
        element: &'a str,
        id: Option<&'a str>,
        classes: Option<&'a str>,
    ) -> Result<Vec<&'a str>, AllocError>
        requires { length self.now.keys.items ≡ 64 }
        ensures { IfOk result (λ texts. map (λ text. text.now) texts.items
            ≡ filter (is_told self.now.keys.items) (texts_of element.now (option_copied id.entry) (option_copied classes.entry))) }
    {
        let mut texts = Vec::new(alloc);
        self.add_told(element, &mut texts)?;
        if let Some(id) = id {
            self.add_told(id, &mut texts)?;
        }
        let mut words = classes.unwrap_or("").split_ascii_whitespace();
        while let Some(word) = words.next() {
            self.add_told(word, &mut texts)?;
        }
        Ok(texts)
    }

    /// Appends the numbers of the rules that are indexed under a text.
    fn add_numbers(&self, text: &str, numbers: &mut Vec<usize>) -> Result<(), AllocError>
        ensures { OnOk result (numbers.new.items ≡ numbers.old.items ++ numbers_under self.now text.now) }
    {
        if let Some(found) = self.by_text.get(text) {
            numbers.extend_from_slice(found.as_slice())?;
        }
        Ok(())
    }

    /// Returns the numbers of the rules that state no text or are indexed under one of these texts, strictly ascending.
    fn numbers(&self, alloc: Global, mut texts: Vec<&str>) -> Result<Vec<usize>, AllocError>
        ensures found { IfOk result (λ numbers. All (λ text. All (Contains numbers.items) (numbers_under self.now text.now)) texts.entry.items) }
        ensures general { IfOk result (λ numbers. All (Contains numbers.items) self.now.general.items) }
        ensures ascending { IfOk result (λ numbers. IsStrictlyIncreasing numbers.items) }
    {
        let mut numbers = Vec::new(alloc);
        numbers.extend_from_slice(self.general.as_slice())?;
        // equal texts, such as a repeated class, are looked up once
        texts.sort_unstable();
        texts.dedup();
        for text in &texts {
            self.add_numbers(*text, &mut numbers)?;
        }
        numbers.sort_unstable();
        numbers.dedup();
        Ok(numbers)
    }

    /// Reports whether one of the indexed rules may select an element with this local name and these attributes.
    ///
    /// If it returns `false`, no rule selects the element, and its style is that without any declaration.
    #[inline]
    pub fn may_select(&self, element: &str, attrs: &[Attribute]) -> bool
        requires { length self.now.keys.items ≡ 64 }
        ensures told { result ≡ is_told self.now.keys.items element.now || is_filled self.now.general.items
            || self.now.asks_attributes && is_filled attrs.now }
        ensures unstyled { OnFalse result ((rules : List Rule) → Finds self.now rules →
            element_style rules element.now (map property_of attrs.now) ≡ style_by []) }
    {
        self.keys[text_key(element)]
            | !self.general.is_empty()
            | (self.asks_attributes & !attrs.is_empty())
    }

    /// Returns the style that `rules` give an element with this local name and these attributes.
    ///
    /// `rules` must be the list of which this is the index. The result is that of [`computed_style`], which tests all rules.
    ///
    /// # Errors
    ///
    /// Returns `OutOfMemory` if an allocation is refused.
    #[inline(never)]
    pub fn computed_style(
        &self,
        alloc: Global,
        rules: &[StyleRule],
        element: &str,
        attrs: &[Attribute],
    ) -> Result<ComputedStyle, Error>
        requires { Indexes self.now (map rule_of rules.now) }
        ensures ok { IfOk result (λ style. style ≡ element_style (map rule_of rules.now) element.now (map property_of attrs.now)) }
        ensures err { OnlyOutOfMemory result }
    {
        if rules.len() <= SCANNED_RULES_MAX {
            return computed_style(alloc, rules, element, attrs);
        }
        let id = first_value(attrs, "id");
        let classes = first_value(attrs, "class");
        let texts = self.texts(alloc, element, id, classes)?;
        let numbers = self.numbers(alloc, texts)?;
        Ok(style_of_rules(rules, numbers.as_slice(), element, id, classes)?)
    }
}
