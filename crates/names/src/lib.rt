// Tests on names, which are parts of the name bytes, and the decimal digits of an array position.
#![tactic(auto)]

ghost use Rattle.std.specs.Prelude.{◌≡◌, length, true};
ghost use Rattle.names.specs.Names.{same, starts_with_set, is_upper_or_digit, is_hook_name, starts_a_ref, is_ref_like_object, is_ref_like_name};

pub mod digits;

// Whether no eight bytes and none of the rest differ.
#[inline(always)]
fn look_alike(a: &[u8], b: &[u8]) -> bool
    requires { length a.now ≡ length b.now }
    ensures { a.now ≡ b.now → result ≡ true }
{
    let (eights, rest) = a.as_chunks::<8>();
    let (others, other_rest) = b.as_chunks::<8>();
    for i in 0..eights.len() {
        if u64::from_le_bytes(eights[i]) != u64::from_le_bytes(others[i]) {
            return false;
        }
    }
    for i in 0..rest.len() {
        if rest[i] != other_rest[i] {
            return false;
        }
    }
    true
}

#[inline(never)]
fn are_equal(a: &[u8], b: &[u8]) -> bool
    ensures { result ≡ same a.now b.now }
{
    a == b
}

// The two names have equal bytes: `==` under the definition's name. The rows of a shape often have names of one length with one
// beginning; for each of these `==` makes a call, which costs more than finding the difference here.
#[inline(always)]
pub fn same_bytes(a: &[u8], b: &[u8]) -> bool
    ensures { result ≡ same a.now b.now }
{
    a.len() == b.len() && look_alike(a, b) && are_equal(a, b)
}

// The name begins with "set".
#[tactic(auto, unfolding(crate::specs::Names::starts_with_set))]
pub fn starts_with_set(name: &[u8]) -> bool
    ensures { result ≡ starts_with_set name.now }
{
    name.starts_with(b"set")
}

#[tactic(auto, unfolding(crate::specs::Names::is_upper_or_digit))]
fn is_upper_or_digit(b: u8) -> bool
    ensures { result ≡ is_upper_or_digit b }
{
    matches!(b, b'A'..=b'Z' | b'0'..=b'9')
}

// Four bytes, "use", then A-Z or 0-9.
#[tactic(auto, unfolding(crate::specs::Names::is_hook_name))]
pub fn is_hook_name(name: &[u8]) -> bool
    ensures { result ≡ is_hook_name name.now }
{
    name.len() >= 4 && name.starts_with(b"use") && is_upper_or_digit(name[3])
}

#[tactic(auto, unfolding(crate::specs::Names::starts_a_ref))]
fn starts_a_ref(b: u8) -> bool
    ensures { result ≡ starts_a_ref b }
{
    matches!(b, b'a'..=b'z' | b'A'..=b'Z' | b'$' | b'_')
}

// "ref", or over 3 bytes ending "Ref" and starting with an ASCII letter, $ or _.
#[tactic(auto, unfolding(crate::specs::Names::is_ref_like_object))]
fn is_ref_like_object(name: &[u8]) -> bool
    ensures { result ≡ is_ref_like_object name.now }
{
    same_bytes(name, b"ref") || name.len() >= 4 && name.ends_with(b"Ref") && starts_a_ref(name[0])
}

// The property is "current", and the object ref-like.
#[tactic(auto, unfolding(crate::specs::Names::is_ref_like_name))]
pub fn is_ref_like_name(object: &[u8], property: &[u8]) -> bool
    ensures { result ≡ is_ref_like_name object.now property.now }
{
    same_bytes(property, b"current") && is_ref_like_object(object)
}
