//! What a paragraph is fed, and what each character is to its wrapping.
//!
//! `class_of(WhiteSpace::Normal, 'a')` is a letter one column wide.

ghost use Rattle.std.specs.Prelude.{◌≡◌, ◌<◌, ◌∷◌, ◌++◌, encode_utf8, length};
ghost use Rattle.std.specs.Str.{chars, IsUtf8};
ghost use Rattle.html_render_layout_lines.specs.Character.{kind, width_of, is_collapsible, has_no_width as has_no_width_of};

use html_render_dom_values::white_space::WhiteSpace;
use unicode_width::UnicodeWidthChar;

/// A character that a paragraph is fed.
#[derive(Clone, Copy)]
pub struct Character<T> {
    /// The character.
    pub code: char,
    /// How white space is treated at its place.
    pub mode: WhiteSpace,
    /// Its tag on a line that begins a paragraph or comes after a newline.
    pub tag: T,
    /// Its tag on a line that began because something didn't fit.
    pub continuation_tag: T,
}

/// How the characters of a text are placed: their mode, and their tags.
#[derive(Clone, Copy)]
pub struct TextStyle<T> {
    /// How white space is treated.
    pub mode: WhiteSpace,
    /// The tag on a line that begins a paragraph or comes after a newline.
    pub tag: T,
    /// The tag on a line that began because something didn't fit.
    pub continuation_tag: T,
}

/// What a paragraph is fed.
#[derive(Clone, Copy)]
pub enum Item<T, M> {
    /// A character.
    Character(Character<T>),
    /// A mark: it takes no column, and directly precedes the next character that is placed.
    Mark(M),
}

/// What a character is to the wrapping.
#[derive(Clone, Copy, PartialEq, Eq)]
pub enum Kind {
    /// A part of a word.
    Letter,
    /// White space that makes a space due between words.
    Space,
    /// A place between words that shows nothing.
    Divider,
    /// A character that is left out.
    Dropped,
    /// A character that is placed by itself.
    Preserved,
    /// A character that ends the line.
    Newline,
    /// Spaces to the next multiple of 8 columns.
    Tab,
    /// White space that is placed if it fits.
    SoftSpace,
    /// A tab, each space of which is placed if it fits.
    SoftTab,
}

/// What a character is to the wrapping, and how wide it is.
#[derive(Clone, Copy)]
pub struct Class {
    /// What it is.
    pub kind: Kind,
    /// Its columns.
    pub width: usize,
}

/// Reports whether a character is white space that is collapsed: all white space but the no-break space.
pub fn is_collapsible(c: char) -> bool
    ensures { result ≡ is_collapsible c }
{
    c.is_whitespace() && c != '\u{A0}'
}

/// Returns the columns of a character; 0 for a control character.
#[inline]
#[tactic(auto, unfolding(crate::specs::Character::width_of, unicode_width::specs::Width::char_width))]
pub fn width_of(c: char) -> usize
    ensures { result ≡ width_of c }
{
    match c {
        ' '..='~' => 1,
        _ => rare_width(c),
    }
}

/// Returns the columns of any character.
#[inline(never)]
#[tactic(auto, unfolding(crate::specs::Character::width_of))]
fn rare_width(c: char) -> usize
    ensures { result ≡ width_of c }
{
    c.width().unwrap_or(0)
}

/// Returns the kind of a character, and its columns.
#[inline]
#[tactic(auto, unfolding(crate::specs::Character::width_of, crate::specs::Character::kind, unicode_width::specs::Width::char_width))]
pub fn class_of(mode: WhiteSpace, c: char) -> Class
    ensures kind { result.kind ≡ kind mode c }
    ensures width { result.width ≡ width_of c }
{
    match c {
        '!'..='~' => Class {
            kind: if mode == WhiteSpace::Pre {
                Kind::Preserved
            } else {
                Kind::Letter
            },
            width: 1,
        },
        ' ' if mode == WhiteSpace::Normal => Class {
            kind: Kind::Space,
            width: 1,
        },
        '\n' if mode == WhiteSpace::Normal => Class {
            kind: Kind::Space,
            width: 0,
        },
        '\u{A1}'..='\u{167F}' | '\u{3001}'..='\u{10FFFF}' => Class {
            kind: if mode == WhiteSpace::Pre {
                Kind::Preserved
            } else {
                Kind::Letter
            },
            width: rare_width(c),
        },
        _ => rare_class(mode, c),
    }
}

/// Returns the class of any character, by its width and its kind.
#[inline(never)]
#[tactic(auto, unfolding(crate::specs::Character::width_of))]
fn rare_class(mode: WhiteSpace, c: char) -> Class
    ensures kind { result.kind ≡ kind mode c }
    ensures width { result.width ≡ width_of c }
{
    let width = c.width();
    Class {
        kind: kind_of(mode, c, width.is_none()),
        width: width.unwrap_or(0),
    }
}

/// Returns the kind of a character, where it is known whether it has a width.
#[tactic(auto, unfolding(crate::specs::Character::kind))]
fn kind_of(mode: WhiteSpace, c: char, has_no_width: bool) -> Kind
    requires { has_no_width ≡ has_no_width_of c }
    ensures { result ≡ kind mode c }
{
    match mode {
        WhiteSpace::Normal => {
            if is_collapsible(c) {
                Kind::Space
            } else if c == '\u{200B}' {
                Kind::Divider
            } else if has_no_width {
                Kind::Dropped
            } else {
                Kind::Letter
            }
        }
        WhiteSpace::Pre => {
            if c == '\n' {
                Kind::Newline
            } else if c == '\t' {
                Kind::Tab
            } else if has_no_width {
                Kind::Dropped
            } else {
                Kind::Preserved
            }
        }
        WhiteSpace::PreWrap => {
            if c == '\n' {
                Kind::Newline
            } else if c == '\t' {
                Kind::SoftTab
            } else if has_no_width {
                Kind::Dropped
            } else if is_collapsible(c) {
                Kind::SoftSpace
            } else if c == '\u{200B}' {
                Kind::Divider
            } else {
                Kind::Letter
            }
        }
    }
}

/// Returns the first character of a text, and the rest. The text must not be empty.
pub fn split_first_character(text: &str) -> (char, &str)
    requires { 0 < length text.now }
    ensures characters { chars text.now ≡ result.0 ∷ chars result.1.now }
    ensures bytes { text.now ≡ encode_utf8 result.0 ++ result.1.now }
    ensures shorter { length result.1.now < length text.now }
    ensures text { IsUtf8 result.1.now }
{
    let mut chars = text.chars();
    let Some(c) = chars.next() else {
        unreachable!()
    };
    (c, chars.as_str())
}
