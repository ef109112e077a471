//! Calls on a document by their names, with the numbers of nodes: `append_before_sibling 4 2`, `append 1 "text`,
//! `children? 1`. Nodes are numbered as they are made, from 1; the document is 0.

ghost use Rattle.std.specs.Prelude.{IsTrue};
ghost use Rattle.html_render_dom.specs.Dom.{IsNode, parent_at};
ghost use Rattle.html_render_dom.specs.Edits.{CanAppend};
ghost use Rattle.html_render_dom.specs.Moves.{CanAppendBefore, CanPutByParent};

use crate::elements::{attributes, element_name, shown_data};
use crate::faults::Fault;
use crate::texts::{numbers, printed, split_word, unescaped};
use crate::watch::{TRIES, Watch};
use html_render_dom::Error;
use html_render_dom::dom::{ElementFlags, Handle, NodeOrText, QuirksMode, RcDom};
use std::alloc::Global;

/// Fault of a call that is unknown, or whose condition doesn't hold.
const CONDITION: Fault = Fault::Malformed("the condition of a call doesn't hold");

/// Parses the nodes at the start of arguments, up to three, and returns them with the text after them. A missing node is the
/// document.
fn nodes_and_text(arguments: &str) -> ([Handle; 3], &str) {
    let mut nodes = [Handle::new(0); 3];
    let mut text = arguments;
    for node in &mut nodes {
        let (word, more) = split_word(text);
        let Ok(number) = word.parse() else {
            break;
        };
        *node = Handle::new(number);
        text = more;
    }
    (nodes, text)
}

/// Reports whether a node or a text may be appended to a node.
fn can_append(dom: &RcDom, parent: Handle, child: &NodeOrText) -> bool
    ensures { IsTrue result → CanAppend dom.now parent child.now }
{
    let NodeOrText::AppendNode(node) = child else {
        return true;
    };
    dom.is_node(*node)
        && dom.is_node(parent)
        && !dom.has_parent(*node)
        && !dom.is_inclusive_ancestor(*node, parent)
}

/// Reports whether a node or a text may be put before a node with a parent.
fn can_append_before(dom: &RcDom, sibling: Handle, child: &NodeOrText) -> bool
    ensures { IsTrue result → CanAppendBefore dom.now sibling child.now }
{
    let NodeOrText::AppendNode(node) = child else {
        return true;
    };
    dom.is_node(*node) && dom.is_node(sibling) && !dom.is_inclusive_ancestor(*node, sibling)
}

/// Reports whether a node or a text may be put before a node or, if that has no parent, be appended to another.
fn can_put_by_parent(dom: &RcDom, node: Handle, other: Handle, child: &NodeOrText) -> bool
    requires { IsNode dom.now node }
    ensures { IsTrue result → CanPutByParent dom.now (parent_at dom.now node) node other child.now }
{
    match dom.get_parent(node) {
        Some(_) => can_append_before(dom, node, child),
        None => dom.is_node(other) && can_append(dom, other, child),
    }
}

/// Makes a call that changes a document. It has no result to show.
fn edit(
    alloc: Global,
    dom: &mut RcDom,
    call: &str,
    arguments: &str,
    watch: Watch,
) -> Result<String, Fault> {
    let (nodes, given) = nodes_and_text(arguments);
    let [node, other, third] = nodes;
    let is_by_parent = call == "append_based_on_parent_node";
    let child = match given.strip_prefix('"') {
        Some(text) => NodeOrText::AppendText(unescaped(alloc, text)?),
        None => NodeOrText::AppendNode(if is_by_parent { third } else { other }),
    };
    let (tag, flag) = split_word(given);
    let (name, _) = tag.split_once('@').unwrap_or((tag, ""));
    let name = element_name(alloc, name)?;
    let mut attributes = attributes(alloc, tag)?;
    let flags = ElementFlags {
        template: flag == "template",
        mathml_annotation_xml_integration_point: flag == "integration_point",
    };
    let text = unescaped(alloc, given)?;
    let mode = match given {
        "Quirks" => QuirksMode::Quirks,
        "LimitedQuirks" => QuirksMode::LimitedQuirks,
        _ => QuirksMode::NoQuirks,
    };
    watch.begin(call);
    watch.end(match call {
        "RcDom::new" => RcDom::new(alloc).map(|new| *dom = new),
        "create_element" => dom.create_element(alloc, name, attributes, flags).map(drop),
        "create_comment" => dom.create_comment(alloc, text).map(drop),
        "create_pi" => dom.create_pi(alloc, text, String::new(alloc)).map(drop),
        "append_doctype_to_document" => {
            dom.append_doctype_to_document(alloc, text, String::new(alloc), String::new(alloc))
        }
        "parse_error" => dom.parse_error(alloc, text),
        "set_quirks_mode" => Ok(dom.set_quirks_mode(mode)),
        _ if !dom.is_node(node) => return Err(CONDITION),
        "append_element" => dom.append_element(alloc, node, given).map(drop),
        "append_str" => dom.append_str(alloc, node, &text),
        "append" if can_append(dom, node, &child) => dom.append(alloc, node, child),
        "append_before_sibling" if dom.has_parent(node) && can_append_before(dom, node, &child) => {
            dom.append_before_sibling(alloc, node, child)
        }
        "append_based_on_parent_node" if can_put_by_parent(dom, node, other, &child) => {
            dom.append_based_on_parent_node(alloc, node, other, child)
        }
        "remove_from_parent" => Ok(dom.remove_from_parent(node)),
        "reparent_children" if dom.is_node(other) && !dom.is_inclusive_ancestor(node, other) => {
            dom.reparent_children(alloc, node, other)
        }
        "add_attrs_if_missing" if dom.is_element(node) => {
            dom.add_attrs_if_missing(alloc, node, attributes)
        }
        "add_attr_if_missing" if dom.is_element(node) => match attributes.pop() {
            Some(attribute) => dom.add_attr_if_missing(alloc, node, attribute),
            None => return Err(CONDITION),
        },
        _ => return Err(CONDITION),
    })?;
    Ok(String::new(alloc))
}

/// Returns the lines of the data of nodes.
fn shown_nodes(alloc: Global, dom: &RcDom, nodes: &[Handle]) -> Result<String, Fault> {
    let mut shown = String::new(alloc);
    for node in nodes {
        if dom.is_node(*node) {
            write!(shown, "|{}\n", shown_data(alloc, dom.data(*node))?)?;
        }
    }
    Ok(shown)
}

/// Returns the lines of the result of a question: one for each node, whose data it shows, or for any other result.
fn query(
    alloc: Global,
    dom: &RcDom,
    call: &str,
    arguments: &str,
    watch: Watch,
) -> Result<String, Fault> {
    let path = numbers(alloc, arguments)?;
    let (nodes, _) = nodes_and_text(arguments);
    let [node, other, _] = nodes;
    let truth = |holds: bool| watch.shown(alloc, Ok(holds));
    let place = |found: Option<Handle>| watch.shown(alloc, Ok(found.map(Handle::number)));
    watch.begin(call);
    match call {
        "as_dom_string" => printed(alloc, &watch.end(dom.as_dom_string(alloc))?),
        "errors" => watch.shown(alloc, Ok(dom.errors())),
        "quirks_mode" => watch.shown(alloc, Ok(dom.quirks_mode())),
        "get_node_by_path" => place(dom.get_node_by_path(&path)),
        "is_node" => truth(dom.is_node(node)),
        "has_parent" => truth(dom.has_parent(node)),
        "is_element" => truth(dom.is_element(node)),
        "is_template" => truth(dom.is_template(node)),
        "same_node" => truth(dom.same_node(node, other)),
        "is_inclusive_ancestor" => truth(dom.is_inclusive_ancestor(node, other)),
        "is_mathml_annotation_xml_integration_point" => {
            truth(dom.is_element(node) && dom.is_mathml_annotation_xml_integration_point(node))
        }
        "get_template_contents" if dom.is_template(node) => {
            place(Some(dom.get_template_contents(node)))
        }
        _ if !dom.is_node(node) => Err(CONDITION),
        "get_parent" => place(dom.get_parent(node)),
        "nth_child" => place(dom.nth_child(node, other.number())),
        "node_as_dom_string" => printed(alloc, &watch.end(dom.node_as_dom_string(alloc, node))?),
        "children" => shown_nodes(alloc, dom, &watch.end(dom.children(alloc, node))?),
        "data" => {
            watch.done(dom.data(node))?;
            shown_nodes(alloc, dom, &[node])
        }
        "element_name" => {
            let name = watch.end(dom.element_name(alloc, node))?;
            if let Some(name) = &name {
                if !dom.is_element(node) || dom.elem_name(node).local.as_str() != name.as_str() {
                    return Err(Fault::Malformed("two calls answer two names"));
                }
            }
            Ok(format!(in alloc; "|{name:?}\n")?)
        }
        _ => Err(CONDITION),
    }
}

/// Makes the calls of lines, and returns the lines of their results.
pub fn answers(alloc: Global, dom: &mut RcDom, lines: &str, watch: Watch) -> Result<String, Fault> {
    let mut shown = String::new(alloc);
    for line in lines.lines() {
        shown.push_str(&answer(alloc, dom, line, watch)?)?;
    }
    Ok(shown)
}

/// Makes a call, and returns the lines of its result: none for a call that changes the document.
///
/// A name before `?` asks a question. A watched call is made again as long as it is out of memory: it states in its contract
/// that a refusal leaves the document unchanged.
pub fn answer(alloc: Global, dom: &mut RcDom, line: &str, watch: Watch) -> Result<String, Fault> {
    let (call, arguments) = split_word(line);
    for _ in 0..TRIES {
        let came = match call.strip_suffix('?') {
            Some(call) => query(alloc, dom, call, arguments, watch),
            None => edit(alloc, dom, call, arguments, watch),
        };
        if !watch.repeats(&came) {
            return came;
        }
    }
    Err(Fault::Refused(Error::OutOfMemory))
}
