//! Lists of children in the vector of nodes, and single moves between them.

ghost use Rattle.std.specs.Prelude.{◌≡◌, ◌≢◌, ℕ, ◌+◌, ◌<◌, ◌≤◌, ◌++◌, [], All, Contains, IfSome, None, OnOk, OnErr, Some, length, vec_len, vec_capacity, string_bytes};
ghost use Rattle.std.specs.Option.{ForSome};
ghost use Rattle.html_render_dom_nodes.specs.Content.{content_of};
ghost use Rattle.html_render_dom_nodes.specs.Nodes.{node_in, nodes_of};
ghost use Rattle.html_render_dom_nodes.specs.Edits.{created, with_children};
ghost use Rattle.html_render_dom_nodes.specs.Moves.{before, inserted_before, previous, reparented, taken_out, text_placed, with_parents, without};
ghost use Rattle.html_render_dom_nodes.specs.Room.{HasRoomForMore, KeepsRoom};
ghost use Rattle.smallvec.specs.SmallVec.{HasRoomFor, small_vec_len};

use crate::contents::NodeData;
use crate::handles::Handle;
use crate::nodes::{self, Node};
use smallvec::SmallVec;
use std::alloc::{AllocError, Global};
use std::mem;

/// Removes the child from the parent's list, and clears its parent.
pub fn take_out(nodes: &mut Vec<Node>, parent: Handle, child: Handle)
    requires parent { parent < vec_len nodes.old }
    requires child { child < vec_len nodes.old }
    ensures len { vec_len nodes.new ≡ vec_len nodes.old }
    ensures taken_out { nodes_of nodes.new.items ≡ taken_out (nodes_of nodes.old.items) (Some parent) child }
    ensures room { KeepsRoom nodes.old.items nodes.new.items }
{
    drop_child(nodes, parent, child);
    nodes::set_parent(nodes, child, None);
}

/// Removes the child from the parent's list.
fn drop_child(nodes: &mut Vec<Node>, parent: Handle, child: Handle)
    requires { parent < vec_len nodes.old }
    ensures len { vec_len nodes.new ≡ vec_len nodes.old }
    ensures list { let old = nodes_of nodes.old.items in
        nodes_of nodes.new.items ≡ with_children old parent (without child (node_in old parent).children) }
    ensures room { KeepsRoom nodes.old.items nodes.new.items }
{
    drop_from(&mut nodes[parent.number()].children, child);
}

/// Removes each occurrence of the child from a list.
fn drop_from(list: &mut SmallVec<Handle, 2>, child: Handle)
    ensures list { list.new.items ≡ without child list.old.items }
    ensures len { small_vec_len list.new ≤ small_vec_len list.old }
    ensures capacity { list.new.capacity ≡ list.old.capacity }
{
    'dropping: while let Some(place) = list.as_slice().iter().position(|c| *c == child) {
        list.remove(place);
    }
}

/// Removes the child from the list of `from`, if any, and inserts it directly before the sibling in the parent's list.
///
/// # Errors
///
/// Returns an error if an allocation is refused. The nodes are then unchanged.
pub fn move_before(
    nodes: &mut Vec<Node>,
    from: Option<Handle>,
    parent: Handle,
    sibling: Handle,
    child: Handle,
) -> Result<(), AllocError>
    requires from { ForSome from (λ node. node < vec_len nodes.old) }
    requires parent { parent < vec_len nodes.old }
    requires child { child < vec_len nodes.old }
    ensures len { vec_len nodes.new ≡ vec_len nodes.old }
    ensures ok { OnOk result (nodes_of nodes.new.items
        ≡ inserted_before (taken_out (nodes_of nodes.old.items) from child) parent sibling child) }
    ensures err { OnErr result (nodes_of nodes.new.items ≡ nodes_of nodes.old.items) }
{
    reserve_children(nodes, parent, 1)?;
    if let Some(from) = from {
        take_out(nodes, from, child);
    }
    place(nodes, parent, sibling, child);
    Ok(())
}

/// Joins the text to the text node `last`, directly before the sibling. Without one, creates a text node there.
///
/// # Errors
///
/// Returns an error if an allocation is refused. The nodes are then unchanged.
pub fn put_text_before(
    alloc: Global,
    nodes: &mut Vec<Node>,
    parent: Handle,
    sibling: Handle,
    last: Option<Handle>,
    contents: String,
) -> Result<(), AllocError>
    requires parent { parent < vec_len nodes.old }
    requires last { ForSome last (λ node. node < vec_len nodes.old) }
    ensures len { OnOk result (vec_len nodes.old ≤ vec_len nodes.new) }
    ensures ok { OnOk result (nodes_of nodes.new.items
        ≡ text_placed (nodes_of nodes.old.items) parent sibling last (string_bytes contents)) }
    ensures err { OnErr result (nodes_of nodes.new.items ≡ nodes_of nodes.old.items) }
{
    match last {
        Some(node) => nodes::extend_text(nodes, node, contents.as_str()),
        None => place_new(alloc, nodes, parent, sibling, NodeData::text(contents)),
    }
}

/// Creates a node with the next number, directly before the sibling in the parent's list.
fn place_new(
    alloc: Global,
    nodes: &mut Vec<Node>,
    parent: Handle,
    sibling: Handle,
    contents: NodeData,
) -> Result<(), AllocError>
    requires { parent < vec_len nodes.old }
    ensures len { OnOk result (vec_len nodes.new ≡ vec_len nodes.old + 1) }
    ensures ok { let old = nodes_of nodes.old.items in OnOk result (nodes_of nodes.new.items
        ≡ inserted_before (created old (content_of contents)) parent sibling (length old)) }
    ensures err { OnErr result (nodes_of nodes.new.items ≡ nodes_of nodes.old.items) }
{
    let made = Node::lone(alloc, contents);
    let node = Handle::new(nodes.len());
    nodes.reserve(1)?;
    reserve_children(nodes, parent, 1)?;
    nodes.push(made)?;
    place(nodes, parent, sibling, node);
    Ok(())
}

/// Inserts the child directly before the sibling in the parent's list, and sets its parent.
fn place(nodes: &mut Vec<Node>, parent: Handle, sibling: Handle, child: Handle)
    requires parent { parent < vec_len nodes.old }
    requires child { child < vec_len nodes.old }
    requires room { HasRoomForMore nodes.old.items parent 1 }
    ensures len { vec_len nodes.new ≡ vec_len nodes.old }
    ensures placed { nodes_of nodes.new.items ≡ inserted_before (nodes_of nodes.old.items) parent sibling child }
{
    insert_child(nodes, parent, sibling, child);
    nodes::set_parent(nodes, child, Some(parent));
}

/// Inserts the child directly before the sibling in the parent's list.
fn insert_child(nodes: &mut Vec<Node>, parent: Handle, sibling: Handle, child: Handle)
    requires parent { parent < vec_len nodes.old }
    requires room { HasRoomForMore nodes.old.items parent 1 }
    ensures len { vec_len nodes.new ≡ vec_len nodes.old }
    ensures list { let old = nodes_of nodes.old.items in
        nodes_of nodes.new.items ≡ with_children old parent (before sibling child (node_in old parent).children) }
{
    insert_before(&mut nodes[parent.number()].children, sibling, child);
}

/// Inserts the child directly before the sibling in a list. Does nothing if the list doesn't have the sibling.
fn insert_before(list: &mut SmallVec<Handle, 2>, sibling: Handle, child: Handle)
    requires { HasRoomFor list.old 1 }
    ensures { list.new.items ≡ before sibling child list.old.items }
{
    if let Some(place) = list.as_slice().iter().position(|c| *c == sibling) {
        let _ = list.insert(place, child);
    }
}

/// Reserves capacity for more children of the parent.
fn reserve_children(nodes: &mut Vec<Node>, parent: Handle, more: usize) -> Result<(), AllocError>
    requires { parent < vec_len nodes.old }
    ensures len { vec_len nodes.new ≡ vec_len nodes.old }
    ensures capacity { vec_capacity nodes.new ≡ vec_capacity nodes.old }
    ensures same { nodes_of nodes.new.items ≡ nodes_of nodes.old.items }
    ensures room { OnOk result (HasRoomForMore nodes.new.items parent more) }
{
    nodes[parent.number()].children.reserve(more)
}

/// Moves all children of `from`, in order, to the end of the children of `to`.
///
/// # Errors
///
/// Returns an error if an allocation is refused. The nodes are then unchanged.
pub fn move_children(
    alloc: Global,
    nodes: &mut Vec<Node>,
    from: Handle,
    to: Handle,
) -> Result<(), AllocError>
    requires from { from < vec_len nodes.old }
    requires to { to < vec_len nodes.old }
    requires apart { from ≢ to }
    requires children { All (λ c. c < vec_len nodes.old) (node_in (nodes_of nodes.old.items) from).children }
    ensures len { vec_len nodes.new ≡ vec_len nodes.old }
    ensures ok { OnOk result (nodes_of nodes.new.items ≡ reparented (nodes_of nodes.old.items) from to) }
    ensures err { OnErr result (nodes_of nodes.new.items ≡ nodes_of nodes.old.items) }
{
    let more = nodes[from.number()].children.len();
    reserve_children(nodes, to, more)?;
    let moved = take_children(alloc, nodes, from);
    push_children(nodes, to, moved.as_slice());
    set_parents(nodes, moved.as_slice(), to);
    Ok(())
}

/// Takes the parent's list, and leaves it empty. The children's parents aren't changed.
fn take_children(alloc: Global, nodes: &mut Vec<Node>, parent: Handle) -> SmallVec<Handle, 2>
    requires { parent < vec_len nodes.old }
    ensures list { result.items ≡ (node_in (nodes_of nodes.old.items) parent).children }
    ensures len { vec_len nodes.new ≡ vec_len nodes.old }
    ensures cleared { nodes_of nodes.new.items ≡ with_children (nodes_of nodes.old.items) parent [] }
    ensures room { (node more : ℕ) → node ≢ parent → HasRoomForMore nodes.old.items node more → HasRoomForMore nodes.new.items node more }
{
    mem::replace(&mut nodes[parent.number()].children, SmallVec::new(alloc))
}

/// Appends the children to the parent's list, which has capacity for them.
fn push_children(nodes: &mut Vec<Node>, parent: Handle, children: &[Handle])
    requires parent { parent < vec_len nodes.old }
    requires room { HasRoomForMore nodes.old.items parent (length children.now) }
    ensures len { vec_len nodes.new ≡ vec_len nodes.old }
    ensures list { let old = nodes_of nodes.old.items in
        nodes_of nodes.new.items ≡ with_children old parent ((node_in old parent).children ++ children.now) }
{
    let _ = nodes[parent.number()].children.extend_from_slice(children);
}

/// Sets the parent of each of the children.
fn set_parents(nodes: &mut Vec<Node>, children: &[Handle], parent: Handle)
    requires children { All (λ c. c < vec_len nodes.old) children.now }
    requires parent { parent < vec_len nodes.old }
    ensures len { vec_len nodes.new ≡ vec_len nodes.old }
    ensures parents { nodes_of nodes.new.items ≡ with_parents (nodes_of nodes.old.items) children.now parent }
{
    for child in children {
        nodes::set_parent(nodes, *child, Some(parent));
    }
}

/// Returns the node directly before the sibling in the list; `None` if the sibling is the first or isn't in the list.
pub fn previous(list: &[Handle], sibling: Handle) -> Option<Handle>
    ensures previous { result ≡ previous sibling None list.now }
    ensures listed { IfSome result (Contains list.now) }
{
    let place = list.iter().position(|c| *c == sibling)?;
    let last = place.checked_sub(1)?;
    Some(list[last])
}
