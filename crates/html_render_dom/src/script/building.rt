//! The document that a script builds.
//!
//! `built(alloc, "<p\n\"text")?` is the DOM of a paragraph that holds `text`.

ghost use Rattle.std.specs.Prelude.{◌≡◌, Ok, IfErr, IfOk, option_and_then, option_map};
ghost use Rattle.html_render_dom.specs.Faults.{Reads, Takes};
ghost use Rattle.html_render_dom.specs.script.Commands.{append_comment, append_text, attribute_of, close_element, element_name, named, open_element, unescaped};
ghost use Rattle.html_render_dom.specs.script.Scripts.{IsScriptFault, document_of, line_taken, taken};
ghost use Rattle.html_render_dom_nodes.specs.Content.{name_of};

use super::escapes::resolve;
use super::splits::{after_byte, split_at_byte, split_line};
use crate::dom::{
    Attribute, AttributeValue, Handle, LocalName, Namespace, NodeOrText, QualName, RcDom,
};
use crate::faults::Fault;
use html_render_dom_values::Error;
use std::alloc::Global;
use std::marker::Model;

/// A reason for a script without a document.
#[derive(Clone, Copy, Debug)]
pub enum ScriptError {
    /// A call on the DOM is refused: memory is out.
    Refused(Error),
    /// The line of this number, from 1, is faulty.
    FaultyLine(usize),
}

impl From<Error> for ScriptError {
    ghost use Rattle.html_render_dom.specs.declared.script.building.ScriptError.TheVariants.{Refused};

    ghost from_gives = { λ error fault. fault ≡ Refused error };

    /// Returns the error of a refused call on the DOM.
    fn from(error: Error) -> ScriptError {
        ScriptError::Refused(error)
    }
}

/// The document of the lines so far.
#[derive(Drop)]
struct ScriptBuilder {
    dom: RcDom,
    /// The node to which the next line appends.
    current: Handle,
}

impl Model for ScriptBuilder {
    ghost use Rattle.html_render_dom.specs.Dom.{IsNode};
    ghost use Rattle.html_render_dom.specs.script.Scripts.{Cursor};

    ghost Value = { Cursor };

    ghost view = { λ b. record { dom = b.dom; current = b.current } };

    ghost invariant = { λ b. IsNode b.dom b.current };
}

impl ScriptBuilder {
    /// Appends a text to the current node.
    fn append_text(&mut self, alloc: Global, text: &str, plain: &mut String) -> Result<(), Fault>
        ensures { Takes result (option_and_then (taken self.old) (option_map append_text (unescaped text.now))) self.new }
    {
        resolve(text, plain)?;
        self.dom.append_str(alloc, self.current, plain)?;
        Ok(())
    }

    /// Appends a comment to the current node.
    fn append_comment(
        &mut self,
        alloc: Global,
        contents: &str,
        plain: &mut String,
    ) -> Result<(), Fault>
        ensures { Takes result (option_and_then (taken self.old) (option_map append_comment (unescaped contents.now))) self.new }
    {
        resolve(contents, plain)?;
        let contents = String::from_str(alloc, plain)?;
        let comment = self.dom.create_comment(alloc, contents)?;
        self.dom
            .append(alloc, self.current, NodeOrText::AppendNode(comment))?;
        Ok(())
    }

    /// Appends an element to the current node, and makes it current.
    fn open(&mut self, alloc: Global, name: &str) -> Result<(), Fault>
        ensures { Takes result (option_and_then (taken self.old) (option_map open_element (element_name name.now))) self.new }
    {
        let name = element_name(alloc, name)?;
        self.current = self.dom.append_named(alloc, self.current, name)?;
        Ok(())
    }

    /// Makes the parent of the current node current. The document node has none.
    fn close(&mut self) -> Result<(), Fault>
        ensures { Takes result (taken self.old close_element) self.new }
    {
        self.current = self.dom.get_parent(self.current).ok_or(Fault::Faulty)?;
        Ok(())
    }

    /// Gives the current node, which must be an element, an attribute `name=value`, unless it has one of that name. The first
    /// `=` ends the name, which must not be empty.
    fn add_attribute(
        &mut self,
        alloc: Global,
        attribute: &str,
        plain: &mut String,
    ) -> Result<(), Fault>
        ensures { Takes result (option_and_then (taken self.old) (attribute_of attribute.now)) self.new }
    {
        let (name, value) = split_at_byte(b'=', attribute).ok_or(Fault::Faulty)?;
        let local = LocalName::from_str(alloc, named(name)?)?;
        resolve(value, plain)?;
        if !self.dom.is_element(self.current) {
            return Err(Fault::Faulty);
        }
        let name = QualName {
            ns: Namespace::None,
            local,
        };
        let value = AttributeValue::from_str(alloc, plain)?;
        self.dom
            .add_attr_if_missing(alloc, self.current, Attribute { name, value })?;
        Ok(())
    }

    /// Takes a line. The text of the line is written to `plain`.
    fn take(&mut self, alloc: Global, line: &str, plain: &mut String) -> Result<(), Fault>
        ensures { Takes result (line_taken self.old line.now) self.new }
    {
        if let Some(text) = after_byte(b'"', line) {
            return self.append_text(alloc, text, plain);
        }
        if let Some(name) = after_byte(b'<', line) {
            return self.open(alloc, name);
        }
        if let Some(contents) = after_byte(b'!', line) {
            return self.append_comment(alloc, contents, plain);
        }
        if let Some(attribute) = after_byte(b'@', line) {
            return self.add_attribute(alloc, attribute, plain);
        }
        match line.as_bytes() {
            [] => Ok(()),
            [b'>'] => self.close(),
            _ => Err(Fault::Faulty),
        }
    }
}

/// Returns a name, which must not be empty.
fn named(name: &str) -> Result<&str, Fault>
    ensures { Reads result (named name.now) (λ s. s.now) }
{
    if name.is_empty() {
        return Err(Fault::Faulty);
    }
    Ok(name)
}

/// Returns the name of an element: of SVG after `svg:`, otherwise of HTML.
fn element_name(alloc: Global, name: &str) -> Result<QualName, Fault>
    ensures { Reads result (element_name name.now) name_of }
{
    let (ns, local) = match name.strip_prefix("svg:") {
        Some(local) => (Namespace::Svg, named(local)?),
        None => (Namespace::Html, named(name)?),
    };
    let local = LocalName::from_str(alloc, local)?;
    Ok(QualName { ns, local })
}

/// Returns the DOM that the lines of a script build. The script starts at the document. Empty lines do nothing, and a
/// carriage return before a line feed is dropped.
///
/// # Errors
///
/// `FaultyLine` with the number, from 1, of the first line that is no call, or whose call can't be made: an attribute of the
/// document, or `>` on the document. `Refused` if memory is out.
pub fn built(alloc: Global, script: &str) -> Result<RcDom, ScriptError>
    ensures ok { IfOk result (λ dom. document_of script.now ≡ Ok dom) }
    ensures err { IfErr result (λ e. IsScriptFault script.now e) }
{
    let dom = RcDom::new(alloc)?;
    let current = dom.get_document();
    let mut builder = ScriptBuilder { dom, current };
    let mut plain = String::new(alloc);
    let mut number = 0usize;
    let mut rest = script;
    while !rest.is_empty() {
        let (line, after) = split_line(rest);
        number += 1;
        match builder.take(alloc, line, &mut plain) {
            Ok(()) => rest = after,
            Err(Fault::Refused(error)) => return Err(ScriptError::Refused(error)),
            Err(Fault::Faulty) => return Err(ScriptError::FaultyLine(number)),
        }
    }
    Ok(builder.dom)
}
