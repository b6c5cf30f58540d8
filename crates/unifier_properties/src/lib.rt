// resolve_property_type
#![tactic(auto)]

ghost use Rattle.std.specs.Prelude.{◌≡◌};
ghost use Rattle.unifier_definition.specs.Property.{entry, star, star_bytes, string};
ghost use Rattle.unifier_properties.specs.Lookup.{some_shape, key_name, entry_number, number_by_entry, number_by_hook, number_on_registered, properties_in, lookup_of, KeyInside, LookupAsked, GivesShape};

mod properties;

use crate::properties::Properties;
use image::{NONE, Table, header, shapes};
use image_views::NamedImage;
use names::digits::digits_of;
use names::is_hook_name;
use unifier_nodes::node::Node;

// A property's name: a name of the image, an array position, a number, or a computed key.
#[derive(Clone, Copy)]
pub enum Key {
    String(u32),
    Position(u32),
    Number,
    Computed,
}

// The type number that a lookup gives, by the rule that gave it.
#[derive(Clone, Copy)]
pub enum Lookup {
    Exact(u32),
    Star(u32),
    Hook(u32),
    Nothing,
}

// The shape that a node's word says: the word is the image's, NONE for no shape.
#[tactic(auto, unfolding(crate::specs::Lookup::some_shape))]
fn some_shape(word: u32) -> Option<u32>
    ensures { result ≡ some_shape word }
{
    (word != NONE).then_some(word)
}

// The shape of an Object or a Function, if it has one.
pub fn shape_of(node: Node) -> Option<u32>
    ensures { GivesShape node result }
{
    match node {
        Node::Object(shape) => some_shape(shape),
        Node::Function(_, shape, _) => some_shape(shape),
        Node::Var(_) | Node::Primitive | Node::Poly | Node::ObjectMethod => None,
        Node::Phi(_, _) => None,
    }
}

// The hook type, if this is a hook name.
fn hook_by_name(image: &NamedImage, text: &[u8]) -> Lookup
    ensures { result ≡ number_by_hook image.now.words (string text.now) }
{
    if !is_hook_name(text) {
        return Lookup::Nothing;
    }
    // The word is the image's, NONE for no hook type.
    let hook = image.image().word(header::HOOK_TYPE);
    if hook == NONE {
        return Lookup::Nothing;
    }
    Lookup::Hook(hook)
}

// The hook type, for a hook name; digits are none.
fn hook_rule(image: &NamedImage, key: Key) -> Lookup
    requires { KeyInside image.now.words key }
    ensures { result ≡ number_by_hook image.now.words (key_name image.now.words image.now.names key) }
{
    match key {
        Key::String(name) => hook_by_name(image, image.name(name)),
        Key::Position(_) => Lookup::Nothing,
        Key::Number => Lookup::Nothing,
        Key::Computed => Lookup::Nothing,
    }
}

// The "*" entry: all that a number or a computed key finds.
fn star_entry(properties: &Properties) -> Lookup
    ensures { result ≡ number_by_entry star (entry (properties_in properties.now.image.now properties.now.rows) star_bytes) }
{
    match properties.get(b"*") {
        Some(t) => Lookup::Star(t),
        None => Lookup::Nothing,
    }
}

// The exact name, then "*", then, for a hook name, the hook type.
fn by_name(properties: &Properties, text: &[u8]) -> Lookup
    ensures { result ≡ number_on_registered properties.now.image.now.words (properties_in properties.now.image.now properties.now.rows) (string text.now) }
{
    if let Some(t) = properties.get(text) {
        return Lookup::Exact(t);
    }
    if let Some(t) = properties.get(b"*") {
        return Lookup::Star(t);
    }
    hook_by_name(properties.image, text)
}

// What a registered shape of these properties gives.
fn on_registered(properties: &Properties, key: Key) -> Lookup
    requires { KeyInside properties.now.image.now.words key }
    ensures { result ≡ number_on_registered properties.now.image.now.words (properties_in properties.now.image.now properties.now.rows) (key_name properties.now.image.now.words properties.now.image.now.names key) }
{
    match key {
        Key::String(name) => by_name(properties, properties.image.name(name)),
        Key::Position(k) => by_name(properties, digits_of(k).as_slice()),
        Key::Number => star_entry(properties),
        Key::Computed => star_entry(properties),
    }
}

// The type of a property, on an object of this shape, or of none where it has no shape or is of another kind.
pub fn resolve_property_type(image: &NamedImage, shape: Option<u32>, key: Key) -> Lookup
    requires { LookupAsked image.now.words key }
    ensures { result ≡ lookup_of image.now.words image.now.names shape (key_name image.now.words image.now.names key) }
{
    let Some(shape) = shape else {
        return hook_rule(image, key);
    };
    let tables = image.image();
    if shape >= tables.count(Table::Shapes) {
        return Lookup::Nothing;
    }
    if tables.cell(Table::Shapes, shape, 0) != shapes::PRESENT {
        return Lookup::Nothing;
    }
    let first = tables.cell(Table::Shapes, shape, 1);
    let n = tables.cell(Table::Shapes, shape, 2);
    let properties = Properties {
        image,
        rows: first..first + n,
    };
    on_registered(&properties, key)
}
