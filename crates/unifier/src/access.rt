// unify with a Property on the right.
ghost use Rattle.std.specs.Prelude.{◌≡◌};
ghost use Rattle.unifier_nodes.specs.States.{KnownBoth};
ghost use Rattle.unifier_nodes.specs.Promises.{Binds};
ghost use Rattle.unifier_properties.specs.Lookup.{registry_of, key_name, lookup_number};
ghost use Rattle.unifier_counts.specs.declared.GivenBy.TheVariants.{NoLookup};
ghost use Rattle.unifier.specs.Accesses.{unify_as_ref, RefsLaid, Finds, AccessAsked, Accesses};

use crate::bind::unify;
use image::refusal::Refusal;
use image_views::NamedImage;
use unifier_counts::GivenBy;
use unifier_nodes::node::node_of_type;
use unifier_nodes::state::Unifier;
use unifier_properties::{Key, Lookup, resolve_property_type, shape_of};
use unifier_resolve::get;

// What unify with a Property comes to, and what gave the property its type, in a refusal too.
#[derive(Clone, Copy)]
pub struct Accessed {
    pub outcome: Result<(), Refusal>,
    pub given: GivenBy,
}

// The first node of the image's types; the nodes of the Objects of shapes USE_REF and REF_VALUE.
#[derive(Clone, Copy)]
pub struct Places {
    pub types: u32,
    pub use_ref: u32,
    pub ref_value: u32,
}

// The type number that a lookup gives.
fn number_of(found: Lookup) -> Option<u32>
    ensures { result ≡ lookup_number found }
{
    match found {
        Lookup::Exact(t) => Some(t),
        Lookup::Star(t) => Some(t),
        Lookup::Hook(t) => Some(t),
        Lookup::Nothing => None,
    }
}

// No lookup was made.
fn without_lookup(outcome: Result<(), Refusal>) -> Accessed
    ensures { result ≡ record { outcome = outcome; given = NoLookup } }
{
    Accessed {
        outcome,
        given: GivenBy::NoLookup,
    }
}

// A ref access: the object is the Object of USE_REF, and the left side that of REF_VALUE.
fn unify_ref(unifier: &mut Unifier, p: Places, a: u32, obj: u32) -> Result<(), Refusal>
    requires known { KnownBoth unifier.old a obj }
    requires refs_laid { RefsLaid unifier.old p }
    ensures { Binds unify_as_ref unifier.old a obj unifier.new result }
{
    unify(unifier, obj, p.use_ref)?;
    unify(unifier, a, p.ref_value)
}

// The type of this property, on what the object resolved to.
fn unify_found(
    image: &NamedImage,
    unifier: &mut Unifier,
    p: Places,
    a: u32,
    n: u32,
    key: Key,
) -> Accessed
    requires { AccessAsked image.now.words unifier.old p a n key }
    ensures { Finds (registry_of image.now.words image.now.names) (key_name image.now.words image.now.names key) unifier.old a n unifier.new result }
{
    let shape = shape_of(unifier.node(n));
    let found = resolve_property_type(image, shape, key);
    let given = GivenBy::from(found);
    let Some(t) = number_of(found) else {
        return Accessed {
            outcome: Ok(()),
            given,
        };
    };
    let to = node_of_type(image.image().words(), p.types, t);
    let outcome = unify(unifier, a, to);
    Accessed { outcome, given }
}

// The left side and a property of the object are made one; ref_like: the access is taken for one of a ref.
pub fn unify_property(
    image: &NamedImage,
    unifier: &mut Unifier,
    p: Places,
    a: u32,
    obj: u32,
    key: Key,
    ref_like: bool,
) -> Accessed
    requires { AccessAsked image.now.words unifier.old p a obj key }
    ensures { Accesses image.now.words image.now.names unifier.old a obj key ref_like unifier.new result }
{
    if let Err(why) = unifier.charge() {
        return without_lookup(Err(why));
    }
    if ref_like {
        return without_lookup(unify_ref(unifier, p, a, obj));
    }
    match get(unifier, obj) {
        Ok(n) => unify_found(image, unifier, p, a, n, key),
        Err(why) => without_lookup(Err(why)),
    }
}
