//! The document that steps build.

ghost use Rattle.std.specs.Prelude.{◌≡◌, ◌↔◌, IsTrue, ◌<◌, length, string_bytes, IfOk, IfErr, Some};
ghost use Rattle.std.specs.Option.{ForSome};
ghost use Rattle.html_render_dom_values.specs.Outcome.{OnlyOutOfMemory};
ghost use Rattle.html_render_dom.specs.Dom.{IsInclusiveAncestor, IsNode};
ghost use Rattle.html_render_dom_nodes.specs.Content.{name_of};
ghost use Rattle.html_render_dom.specs.Steps as steps;
ghost use Rattle.html_render_dom.specs.StepFaults.{Denies, Performs};
ghost use Rattle.html_render_dom.specs.Steps.{AreStepsOf, HasName, HasValue, IsStepFault};
ghost use Rattle.html_render_dom.specs.declared.steps.step.StepKind.TheVariants as kind;

use super::pieces::piece_in;
use super::step::{Step, StepKind};
use crate::dom::{Attribute, AttributeValue, Handle, LocalName, NodeOrText, QualName, RcDom};
use crate::faults::Fault;
use html_render_dom_values::Error;
use std::alloc::Global;
use std::marker::Model;

/// A reason for steps without a document.
#[derive(Clone, Copy, Debug)]
pub enum StepError {
    /// A call on the document is refused: memory is out.
    Refused(Error),
    /// The step of this number, from 0, is the first that can't be taken: its kind is unknown, it names a node or a piece of
    /// the text that isn't there, or the document doesn't allow it.
    Faulty(usize),
}

impl From<Error> for StepError {
    ghost use Rattle.html_render_dom.specs.declared.steps.building.StepError.TheVariants.{Refused};

    ghost from_gives = { λ error fault. fault ≡ Refused error };

    /// Returns the error of a refused call on the document.
    fn from(error: Error) -> StepError {
        StepError::Refused(error)
    }
}

/// A step, with the text of which its names and texts are pieces.
#[derive(Clone, Copy)]
struct StepOver<'a> {
    step: &'a Step,
    text: &'a [u8],
    /// The text, if all of it is UTF-8.
    string: Option<&'a str>,
    ghost same: { ForSome string (λ s. s.now ≡ text.now) },
}

impl<'a> StepOver<'a> {
    /// Returns the step's text; `Faulty` if it is no piece of the text.
    fn value(&self) -> Result<&'a str, Fault>
        ensures ok { IfOk result (λ s. (s.now ≡ steps.value_in self.now.text.now self.now.step.now) × HasValue self.now.text.now self.now.step.now) }
        ensures err { IfErr result (λ fault. Denies fault (HasValue self.now.text.now self.now.step.now)) }
    {
        let (value, length) = (self.step.value as usize, self.step.value_length as usize);
        piece_in(self.text, self.string, value, length).ok_or(Fault::Faulty)
    }

    /// Returns the step's name without its namespace; `Faulty` if it is no piece of the text.
    fn local_name(&self) -> Result<&'a str, Fault>
        ensures ok { IfOk result (λ s. (s.now ≡ (steps.step_name self.now.text.now self.now.step.now).local) × HasName self.now.text.now self.now.step.now) }
        ensures err { IfErr result (λ fault. Denies fault (HasName self.now.text.now self.now.step.now)) }
    {
        let (name, length) = (self.step.name as usize, self.step.name_length as usize);
        piece_in(self.text, self.string, name, length).ok_or(Fault::Faulty)
    }

    /// Returns the step's name with its namespace; `Faulty` if it is no piece of the text.
    fn name(&self, alloc: Global) -> Result<QualName, Fault>
        ensures ok { IfOk result (λ n. (name_of n ≡ steps.step_name self.now.text.now self.now.step.now) × HasName self.now.text.now self.now.step.now) }
        ensures err { IfErr result (λ fault. Denies fault (HasName self.now.text.now self.now.step.now)) }
    {
        let local = self.local_name()?;
        Ok(QualName {
            ns: self.step.namespace(),
            local: LocalName::from_str(alloc, local)?,
        })
    }
}

/// Reports whether a node is another one or an ancestor of it. Most nodes that are inserted have no children yet, and then
/// no ancestor is visited.
#[tactic(auto, using(crate::specs::laws::steps::Childless::childless, crate::specs::laws::steps::Childless::above_itself))]
fn is_above(dom: &RcDom, node: Handle, below: Handle) -> bool
    requires node { IsNode dom.now node }
    requires below { IsNode dom.now below }
    ensures { IsTrue result ↔ IsInclusiveAncestor dom.now node below }
{
    if !dom.child_list(node).is_empty() {
        return dom.is_inclusive_ancestor(node, below);
    }
    // the contract of this call states that the nodes are a forest
    let _ = dom.get_document();
    node == below
}

/// The document of the steps so far, and its nodes by their numbers in steps.
#[derive(Drop)]
struct StepBuilder {
    dom: RcDom,
    made: Vec<Handle>,
}

impl Model for StepBuilder {
    ghost use Rattle.std.specs.Prelude.{All};
    ghost use Rattle.html_render_dom.specs.Dom.{IsNode};
    ghost use Rattle.html_render_dom.specs.Steps.{Built};

    ghost Value = { Built };

    ghost view = { λ b. record { dom = b.dom; made = b.made.items } };

    ghost invariant = { λ b. All (IsNode b.dom) b.made.items };
}

impl StepBuilder {
    /// Creates a document, whose document node has the number 0.
    fn new(alloc: Global) -> Result<StepBuilder, Error>
        ensures ok { IfOk result (λ b. b ≡ steps.begun) }
        ensures err { OnlyOutOfMemory result }
    {
        let dom = RcDom::new(alloc)?;
        let mut made = Vec::new(alloc);
        made.push(dom.get_document())?;
        Ok(StepBuilder { dom, made })
    }

    /// Returns the node of this number; `Faulty` if there is none.
    fn node(&self, number: u32) -> Result<Handle, Fault>
        ensures ok { IfOk result (λ h. (h ≡ steps.made_node self.now number) × (number < length self.now.made)) }
        ensures is_node { IfOk result (λ h. IsNode self.now.dom h) }
        ensures err { IfErr result (λ fault. Denies fault (number < length self.now.made)) }
    {
        self.made.get(number as usize).copied().ok_or(Fault::Faulty)
    }

    /// Creates an element.
    fn make_element(&mut self, alloc: Global, given: StepOver<'_>) -> Result<(), Fault>
        ensures { Performs result given.entry.text.now given.entry.step.now (Some kind.MakeElement) self.old self.new }
    {
        let name = given.name(alloc)?;
        let flags = given.step.element_flags();
        let element = self
            .dom
            .create_element(alloc, name, Vec::new(alloc), flags)?;
        self.made.push(element)?;
        Ok(())
    }

    /// Creates an element, and appends it to a node.
    fn append_element(&mut self, alloc: Global, given: StepOver<'_>) -> Result<(), Fault>
        ensures { Performs result given.entry.text.now given.entry.step.now (Some kind.AppendElement) self.old self.new }
    {
        let parent = self.node(given.step.node)?;
        let name = given.name(alloc)?;
        let flags = given.step.element_flags();
        if flags.template || flags.mathml_annotation_xml_integration_point {
            let element = self
                .dom
                .create_element(alloc, name, Vec::new(alloc), flags)?;
            self.dom
                .append(alloc, parent, NodeOrText::AppendNode(element))?;
            self.made.push(element)?;
            return Ok(());
        }
        let element = self.dom.append_named(alloc, parent, name)?;
        self.made.push(element)?;
        Ok(())
    }

    /// Creates a comment.
    fn make_comment(&mut self, alloc: Global, given: StepOver<'_>) -> Result<(), Fault>
        ensures { Performs result given.entry.text.now given.entry.step.now (Some kind.MakeComment) self.old self.new }
    {
        let contents = String::from_str(alloc, given.value()?)?;
        let comment = self.dom.create_comment(alloc, contents)?;
        self.made.push(comment)?;
        Ok(())
    }

    /// Gives an element an attribute, unless it has one of that name.
    fn add_attribute(&mut self, alloc: Global, given: StepOver<'_>) -> Result<(), Fault>
        ensures { Performs result given.entry.text.now given.entry.step.now (Some kind.AddAttribute) self.old self.new }
    {
        let element = self.node(given.step.node)?;
        if !self.dom.is_element(element) {
            return Err(Fault::Faulty);
        }
        let name = given.name(alloc)?;
        let value = AttributeValue::from_str(alloc, given.value()?)?;
        self.dom
            .add_attr_if_missing(alloc, element, Attribute { name, value })?;
        Ok(())
    }

    /// Appends a node to another one.
    fn put_node(&mut self, alloc: Global, given: StepOver<'_>) -> Result<(), Fault>
        ensures { Performs result given.entry.text.now given.entry.step.now (Some kind.PutNode) self.old self.new }
    {
        let parent = self.node(given.step.node)?;
        let child = self.node(given.step.child)?;
        if self.dom.has_parent(child) || is_above(&self.dom, child, parent) {
            return Err(Fault::Faulty);
        }
        self.dom
            .append(alloc, parent, NodeOrText::AppendNode(child))?;
        Ok(())
    }

    /// Appends a text to a node.
    fn put_text(&mut self, alloc: Global, given: StepOver<'_>) -> Result<(), Fault>
        ensures { Performs result given.entry.text.now given.entry.step.now (Some kind.PutText) self.old self.new }
    {
        let parent = self.node(given.step.node)?;
        let value = given.value()?;
        self.dom.append_str(alloc, parent, value)?;
        Ok(())
    }

    /// Inserts a node directly before another one.
    fn put_node_before(&mut self, alloc: Global, given: StepOver<'_>) -> Result<(), Fault>
        ensures { Performs result given.entry.text.now given.entry.step.now (Some kind.PutNodeBefore) self.old self.new }
    {
        let sibling = self.node(given.step.node)?;
        let child = self.node(given.step.child)?;
        if !self.dom.has_parent(sibling) || is_above(&self.dom, child, sibling) {
            return Err(Fault::Faulty);
        }
        self.dom
            .append_before_sibling(alloc, sibling, NodeOrText::AppendNode(child))?;
        Ok(())
    }

    /// Inserts a text directly before a node.
    fn put_text_before(&mut self, alloc: Global, given: StepOver<'_>) -> Result<(), Fault>
        ensures { Performs result given.entry.text.now given.entry.step.now (Some kind.PutTextBefore) self.old self.new }
    {
        let sibling = self.node(given.step.node)?;
        if !self.dom.has_parent(sibling) {
            return Err(Fault::Faulty);
        }
        let value = String::from_str(alloc, given.value()?)?;
        self.dom
            .append_before_sibling(alloc, sibling, NodeOrText::AppendText(value))?;
        Ok(())
    }

    /// Removes a node from its parent.
    fn remove(&mut self, given: StepOver<'_>) -> Result<(), Fault>
        ensures { Performs result given.entry.text.now given.entry.step.now (Some kind.Remove) self.old self.new }
    {
        let node = self.node(given.step.node)?;
        self.dom.remove_from_parent(node);
        Ok(())
    }

    /// Appends all children of a node to those of another one.
    fn reparent(&mut self, alloc: Global, given: StepOver<'_>) -> Result<(), Fault>
        ensures { Performs result given.entry.text.now given.entry.step.now (Some kind.Reparent) self.old self.new }
    {
        let node = self.node(given.step.node)?;
        let parent = self.node(given.step.other)?;
        if is_above(&self.dom, node, parent) {
            return Err(Fault::Faulty);
        }
        self.dom.reparent_children(alloc, node, parent)?;
        Ok(())
    }

    /// Gives a template's contents a number.
    fn name_contents(&mut self, given: StepOver<'_>) -> Result<(), Fault>
        ensures { Performs result given.entry.text.now given.entry.step.now (Some kind.TemplateContents) self.old self.new }
    {
        let node = self.node(given.step.node)?;
        if !self.dom.is_template(node) {
            return Err(Fault::Faulty);
        }
        let contents = self.dom.get_template_contents(node);
        self.made.push(contents)?;
        Ok(())
    }

    /// Creates a processing instruction.
    fn make_instruction(&mut self, alloc: Global, given: StepOver<'_>) -> Result<(), Fault>
        ensures { Performs result given.entry.text.now given.entry.step.now (Some kind.MakeInstruction) self.old self.new }
    {
        let target = String::from_str(alloc, given.local_name()?)?;
        let contents = String::from_str(alloc, given.value()?)?;
        let instruction = self.dom.create_pi(alloc, target, contents)?;
        self.made.push(instruction)?;
        Ok(())
    }

    /// Inserts a node directly before another one that has a parent, or else appends it to a third one.
    fn put_node_by_parent(&mut self, alloc: Global, given: StepOver<'_>) -> Result<(), Fault>
        ensures { Performs result given.entry.text.now given.entry.step.now (Some kind.PutNodeByParent) self.old self.new }
    {
        let element = self.node(given.step.node)?;
        let other = self.node(given.step.other)?;
        let child = self.node(given.step.child)?;
        if self.dom.has_parent(element) {
            if is_above(&self.dom, child, element) {
                return Err(Fault::Faulty);
            }
        } else if self.dom.has_parent(child) || is_above(&self.dom, child, other) {
            return Err(Fault::Faulty);
        }
        self.dom
            .append_based_on_parent_node(alloc, element, other, NodeOrText::AppendNode(child))?;
        Ok(())
    }

    /// Inserts a text directly before a node that has a parent, or else appends it to another one.
    fn put_text_by_parent(&mut self, alloc: Global, given: StepOver<'_>) -> Result<(), Fault>
        ensures { Performs result given.entry.text.now given.entry.step.now (Some kind.PutTextByParent) self.old self.new }
    {
        let element = self.node(given.step.node)?;
        let other = self.node(given.step.other)?;
        let value = String::from_str(alloc, given.value()?)?;
        self.dom
            .append_based_on_parent_node(alloc, element, other, NodeOrText::AppendText(value))?;
        Ok(())
    }

    /// Appends a doctype to the document.
    fn put_doctype(&mut self, alloc: Global, given: StepOver<'_>) -> Result<(), Fault>
        ensures { Performs result given.entry.text.now given.entry.step.now (Some kind.PutDoctype) self.old self.new }
    {
        let name = String::from_str(alloc, given.local_name()?)?;
        let public_id = String::from_str(alloc, given.value()?)?;
        self.dom
            .append_doctype_to_document(alloc, name, public_id, String::new(alloc))?;
        Ok(())
    }

    /// Sets the quirks mode.
    fn set_quirks(&mut self, given: StepOver<'_>) -> Result<(), Fault>
        ensures { Performs result given.entry.text.now given.entry.step.now (Some kind.SetQuirks) self.old self.new }
    {
        self.dom.set_quirks_mode(given.step.quirks_mode());
        Ok(())
    }

    /// Takes a step of this kind.
    fn take(
        &mut self,
        alloc: Global,
        given: StepOver<'_>,
        kind: Option<StepKind>,
    ) -> Result<(), Fault>
        ensures { Performs result given.entry.text.now given.entry.step.now kind self.old self.new }
    {
        match kind {
            None => Err(Fault::Faulty),
            Some(StepKind::MakeElement) => self.make_element(alloc, given),
            Some(StepKind::AppendElement) => self.append_element(alloc, given),
            Some(StepKind::MakeComment) => self.make_comment(alloc, given),
            Some(StepKind::MakeInstruction) => self.make_instruction(alloc, given),
            Some(StepKind::AddAttribute) => self.add_attribute(alloc, given),
            Some(StepKind::PutNode) => self.put_node(alloc, given),
            Some(StepKind::PutText) => self.put_text(alloc, given),
            Some(StepKind::PutNodeBefore) => self.put_node_before(alloc, given),
            Some(StepKind::PutTextBefore) => self.put_text_before(alloc, given),
            Some(StepKind::PutNodeByParent) => self.put_node_by_parent(alloc, given),
            Some(StepKind::PutTextByParent) => self.put_text_by_parent(alloc, given),
            Some(StepKind::Remove) => self.remove(given),
            Some(StepKind::Reparent) => self.reparent(alloc, given),
            Some(StepKind::TemplateContents) => self.name_contents(given),
            Some(StepKind::PutDoctype) => self.put_doctype(alloc, given),
            Some(StepKind::SetQuirks) => self.set_quirks(given),
        }
    }
}

/// Takes steps over a text, in order, and returns the document that they build. `text` is the buffer of which the steps'
/// names and texts are pieces.
///
/// # Errors
///
/// `Faulty` with the number, from 0, of the first step that can't be taken. `Refused` with `OutOfMemory`.
pub fn built(alloc: Global, text: &[u8], steps: &[Step]) -> Result<RcDom, StepError>
    ensures ok { IfOk result (λ dom. AreStepsOf text.now steps.now dom) }
    ensures err { IfErr result (λ e. IsStepFault text.now steps.now e) }
{
    let mut builder = StepBuilder::new(alloc)?;
    // pieces of a text that is UTF-8 aren't tested one by one
    let string = str::from_utf8(text).ok();
    let mut rest = steps;
    while let Some((step, behind)) = rest.split_first() {
        let given = StepOver { step, text, string };
        match builder.take(alloc, given, step.step_kind()) {
            Ok(()) => rest = behind,
            Err(Fault::Refused(error)) => return Err(StepError::Refused(error)),
            Err(Fault::Faulty) => return Err(StepError::Faulty(steps.len() - rest.len())),
        }
    }
    Ok(builder.dom)
}
