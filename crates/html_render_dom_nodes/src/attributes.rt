//! Attributes of an element, with an index of names if there are many.

ghost use Rattle.std.specs.Prelude.{◌≡◌, ◌+◌, ◌^◌, ◌<◌, ◌++◌, ◌∷◌, [], drop, false, if◌then◌else◌, IfOk, length, List, ℕ, map, None, OnErr, OnOk, Some, string_bytes};
ghost use Rattle.std.specs.BTreeMap.{get_by_text};
ghost use Rattle.std.specs.Str.{bytes_eq};
ghost use Rattle.html_render_dom_nodes.specs.AttributeLists.{attributes_in, is_single};
ghost use Rattle.html_render_dom_nodes.specs.Content.{name_of, property_of};
ghost use Rattle.html_render_dom_nodes.specs.Elements.{has_name, with_missing};
ghost use Rattle.html_render_dom_nodes.specs.Places.{first_of, place_of, TellsPlaces};

use crate::local_name::LocalName;
use crate::names::{Attribute, QualName, has_name};
use std::alloc::{AllocError, Global};
use std::collections::BTreeMap;
use std::marker::Model;
use std::mem::{self, size_of};
use std::slice;

/// Maximum number of attributes that are searched one by one, without an index.
const LINEAR_SCAN_MAX: usize = 16;

/// A list of attributes, in the order in which they were given.
///
/// If there are many, they are indexed by local name. So the time to add `n` attributes, one by one, is about
/// proportional to `n`.
#[derive(Drop)]
struct AttributeList {
    list: Vec<Attribute>,
    /// Index in `list` of the first attribute with each local name; `None` while there are few.
    places: Option<Box<BTreeMap<String, usize>>>,
}

impl Model for AttributeList {
    ghost use Rattle.std.specs.Prelude.{List, IfSome};
    ghost use Rattle.html_render_dom_nodes.specs.declared.names.Attribute.{Attribute};
    ghost use Rattle.html_render_dom_nodes.specs.Places.{TellsPlaces};

    ghost Value = { List Attribute };

    ghost view = { λ a. a.list.items };

    ghost invariant = { λ a. IfSome a.places (λ places. TellsPlaces places.value a.list.items) };
}

/// Records the place of an attribute with this local name, unless one is recorded already.
fn note(
    alloc: Global,
    places: &mut BTreeMap<String, usize>,
    local: &LocalName,
    place: usize,
) -> Result<(), AllocError>
    ensures { OnOk result ((name : List ℕ) → get_by_text places.new name
        ≡ first_of (get_by_text places.old name) (if bytes_eq name local.now then Some place else None)) }
{
    if places.get(local.as_str()).is_none() {
        places.insert(String::from_str(alloc, local.as_str())?, place)?;
    }
    Ok(())
}

/// Records the places of attributes, from `start` on.
fn note_all(
    alloc: Global,
    places: &mut BTreeMap<String, usize>,
    attrs: &[Attribute],
    start: usize,
) -> Result<(), AllocError>
    requires { start + length attrs.now < 2 ^ 64 }
    ensures { OnOk result ((name : List ℕ) → get_by_text places.new name
        ≡ first_of (get_by_text places.old name) (place_of name start attrs.now)) }
{
    for (number, attribute) in attrs.iter().enumerate() {
        note(alloc, places, &attribute.name.local, start + number)?;
    }
    Ok(())
}

/// Returns the place of the first attribute with each local name.
fn places_of(alloc: Global, attrs: &[Attribute]) -> Result<BTreeMap<String, usize>, AllocError>
    ensures { IfOk result (λ places. TellsPlaces places attrs.now) }
{
    let mut places = BTreeMap::new(alloc);
    note_all(alloc, &mut places, attrs, 0)?;
    Ok(places)
}

/// Reports whether one of the attributes from this place on has the name.
fn has_name_from(attrs: &[Attribute], place: usize, name: &QualName) -> bool
    requires { place < length attrs.now }
    ensures { result ≡ has_name (map property_of (drop place attrs.now)) (name_of name.now) }
{
    has_name(&attrs[place..], name)
}

impl AttributeList {
    /// Creates a list of these attributes, without an index.
    #[inline]
    fn of(list: Vec<Attribute>) -> AttributeList
        ensures { result ≡ list.items }
    {
        AttributeList { list, places: None }
    }

    /// Returns a slice of all attributes, in order.
    #[inline]
    fn as_slice(&self) -> &[Attribute]
        ensures { result.now ≡ self.now }
    {
        self.list.as_slice()
    }

    /// Reports whether one of the attributes has the name.
    fn has(&self, name: &QualName) -> bool
        ensures { result ≡ has_name (map property_of self.now) (name_of name.now) }
    {
        let Some(places) = &self.places else {
            return has_name(self.list.as_slice(), name);
        };
        match places.get(name.local.as_str()) {
            Some(place) => has_name_from(self.list.as_slice(), *place, name),
            None => false,
        }
    }

    /// Creates the index if there are many attributes and it doesn't exist yet.
    fn index(&mut self) -> Result<(), AllocError>
        ensures { self.new ≡ self.old }
    {
        if self.places.is_none() && self.list.len() > LINEAR_SCAN_MAX {
            let alloc = *self.list.allocator();
            let places = places_of(alloc, self.list.as_slice())?;
            self.places = Some(Box::new(alloc, places)?);
        }
        Ok(())
    }

    /// Appends attributes, and records their places if there is an index. An error leaves the list unchanged.
    fn append(&mut self, mut given: Vec<Attribute>) -> Result<(), AllocError>
        ensures ok { OnOk result (self.new ≡ self.old ++ given.items) }
        ensures err { OnErr result (self.new ≡ self.old) }
    {
        if self.list.is_empty() {
            *self = AttributeList::of(given);
            return Ok(());
        }
        // taken out, so that an error leaves no index with places of attributes that aren't appended
        let alloc = *self.list.allocator();
        let mut noted = mem::replace(&mut self.places, None);
        if let Some(places) = &mut noted {
            note_all(alloc, places, given.as_slice(), self.list.len())?;
        }
        self.list.append(&mut given)?;
        self.places = noted;
        Ok(())
    }

    /// Appends, in order, the given attributes with a name that the list doesn't have yet. An error leaves the list
    /// unchanged.
    fn add_missing(&mut self, mut given: Vec<Attribute>) -> Result<(), AllocError>
        ensures ok { OnOk result (map property_of self.new ≡ with_missing (map property_of self.old) (map property_of given.items)) }
        ensures err { OnErr result (map property_of self.new ≡ map property_of self.old) }
    {
        self.index()?;
        given.retain(|a| !self.has(&a.name));
        self.append(given)
    }

    /// Appends an attribute, and records its place if there is an index. An error leaves the list unchanged.
    fn push(&mut self, given: Attribute) -> Result<(), AllocError>
        ensures ok { OnOk result (self.new ≡ self.old ++ given ∷ []) }
        ensures err { OnErr result (self.new ≡ self.old) }
    {
        // taken out, so that an error leaves no index with the place of an attribute that isn't appended
        let alloc = *self.list.allocator();
        let mut noted = mem::replace(&mut self.places, None);
        if let Some(places) = &mut noted {
            note(alloc, places, &given.name.local, self.list.len())?;
        }
        self.list.push(given)?;
        self.places = noted;
        Ok(())
    }

    /// Appends an attribute, unless the list has one with its name. An error leaves the list unchanged.
    fn add_one_missing(&mut self, given: Attribute) -> Result<(), AllocError>
        ensures ok { OnOk result (map property_of self.new ≡ with_missing (map property_of self.old) (property_of given ∷ [])) }
        ensures err { OnErr result (map property_of self.new ≡ map property_of self.old) }
    {
        self.index()?;
        if self.has(&given.name) {
            return Ok(());
        }
        self.push(given)
    }
}

/// Storage of an element's attributes.
#[derive(Drop)]
enum Storage {
    /// No attribute.
    Empty,
    /// One attribute, in one allocation.
    Single(Box<Attribute>),
    /// A list of attributes.
    Several(Box<AttributeList>),
}

/// Moves a single attribute into a list with memory for another one. An error leaves the storage unchanged.
fn spread(alloc: Global, storage: &mut Storage) -> Result<(), AllocError>
    ensures same { attributes_in storage.new ≡ attributes_in storage.old }
    ensures spread { OnOk result (is_single storage.new ≡ false) }
{
    if let Storage::Single(_) = storage {
        let mut list = Vec::with_capacity(alloc, 2)?;
        let mut boxed = Box::new(alloc, AttributeList::of(Vec::new(alloc)))?;
        if let Storage::Single(attribute) = mem::replace(storage, Storage::Empty) {
            let _ = list.push(Box::into_inner(attribute));
        }
        *boxed = AttributeList::of(list);
        *storage = Storage::Several(boxed);
    }
    Ok(())
}

/// The attributes of an element, in the order in which they were given, in 16 bytes.
///
/// One attribute takes one allocation, and none takes none.
#[derive(Drop)]
pub struct Attributes {
    storage: Storage,
}

const _: () = prove!(size_of::<Attributes>() == 16);

impl Model for Attributes {
    ghost use Rattle.std.specs.Prelude.{List};
    ghost use Rattle.html_render_dom_nodes.specs.declared.names.Attribute.{Attribute};
    ghost use Rattle.html_render_dom_nodes.specs.AttributeLists.{attributes_in};

    ghost Value = { List Attribute };

    ghost view = { λ a. attributes_in a.storage };
}

impl Attributes {
    /// Creates an empty list, without an allocation.
    #[inline]
    pub fn new() -> Attributes
        ensures { result ≡ [] }
    {
        Attributes {
            storage: Storage::Empty,
        }
    }

    /// Creates a list of one attribute.
    #[inline]
    fn single(alloc: Global, attribute: Attribute) -> Result<Attributes, AllocError>
        ensures { IfOk result (λ made. made ≡ attribute ∷ []) }
    {
        let attribute = Box::new(alloc, attribute)?;
        Ok(Attributes {
            storage: Storage::Single(attribute),
        })
    }

    /// Creates a list of these attributes.
    ///
    /// # Errors
    ///
    /// Returns an error if an allocation is refused.
    #[inline]
    pub fn of(alloc: Global, mut list: Vec<Attribute>) -> Result<Attributes, AllocError>
        ensures { IfOk result (λ made. made ≡ list.items) }
    {
        if list.len() > 1 {
            let list = Box::new(alloc, AttributeList::of(list))?;
            return Ok(Attributes {
                storage: Storage::Several(list),
            });
        }
        match list.pop() {
            Some(attribute) => Attributes::single(alloc, attribute),
            None => Ok(Attributes::new()),
        }
    }

    /// Returns a slice of all attributes, in order.
    #[inline]
    pub fn as_slice(&self) -> &[Attribute]
        ensures { result.now ≡ self.now }
    {
        match &self.storage {
            Storage::Empty => &[],
            Storage::Single(attribute) => slice::from_ref(&**attribute),
            Storage::Several(list) => list.as_slice(),
        }
    }

    /// Gives an element without attributes the given ones. An error leaves it without.
    #[tactic(auto, using(crate::proofs::Mapped::missing_each))]
    fn fill(&mut self, given: Vec<Attribute>) -> Result<(), AllocError>
        requires { self.old ≡ [] }
        ensures ok { OnOk result (map property_of self.new ≡ with_missing (map property_of self.old) (map property_of given.items)) }
        ensures err { OnErr result (map property_of self.new ≡ map property_of self.old) }
    {
        let alloc = *given.allocator();
        let made = Attributes::of(alloc, given)?;
        *self = made;
        Ok(())
    }

    /// Appends, in order, the given attributes with a name that the element doesn't have yet.
    ///
    /// # Errors
    ///
    /// Returns an error if an allocation is refused. The attributes are then unchanged.
    pub fn add_missing(&mut self, given: Vec<Attribute>) -> Result<(), AllocError>
        ensures ok { OnOk result (map property_of self.new ≡ with_missing (map property_of self.old) (map property_of given.items)) }
        ensures err { OnErr result (map property_of self.new ≡ map property_of self.old) }
    {
        spread(*given.allocator(), &mut self.storage)?;
        if let Storage::Several(list) = &mut self.storage {
            return list.add_missing(given);
        }
        self.fill(given)?;
        Ok(())
    }

    /// Appends an attribute, unless the element has one with its name.
    ///
    /// # Errors
    ///
    /// Returns an error if an allocation is refused. The attributes are then unchanged.
    #[inline]
    pub(crate) fn add_one_missing(
        &mut self,
        alloc: Global,
        given: Attribute,
    ) -> Result<(), AllocError>
        ensures ok { OnOk result (map property_of self.new ≡ with_missing (map property_of self.old) (property_of given ∷ [])) }
        ensures err { OnErr result (map property_of self.new ≡ map property_of self.old) }
    {
        spread(alloc, &mut self.storage)?;
        if let Storage::Several(list) = &mut self.storage {
            return list.add_one_missing(given);
        }
        *self = Attributes::single(alloc, given)?;
        Ok(())
    }
}
