// Which rule gave a property its type, and how many lookups each rule gave.
#![tactic(auto)]

ghost use Rattle.std.specs.Prelude.{◌≡◌, ◌<◌};
ghost use Rattle.unifier_counts.specs.Given.{given_by_answer, counted_by, lookups};

use unifier_properties::Lookup;

// What gave a property its type; NoLookup where none was made.
#[derive(Clone, Copy)]
pub enum GivenBy {
    ExactName,
    StarEntry,
    HookRule,
    NoRule,
    NoLookup,
}

// How many lookups the exact name, the "*" entry, the hook rule and nothing gave. A lookup takes two steps of at most 65,536, so
// 16 bits are enough.
#[derive(Clone, Copy)]
pub struct Counts {
    pub exact: u16,
    pub star: u16,
    pub hook: u16,
    pub nothing: u16,
}

// What gave the type of a lookup's answer.
impl From<Lookup> for GivenBy {
    ghost from_gives = { λ found by. by ≡ given_by_answer found };

    fn from(found: Lookup) -> GivenBy {
        match found {
            Lookup::Exact(_) => GivenBy::ExactName,
            Lookup::Star(_) => GivenBy::StarEntry,
            Lookup::Hook(_) => GivenBy::HookRule,
            Lookup::Nothing => GivenBy::NoRule,
        }
    }
}

// One lookup more, if one was made.
pub fn counted(c: Counts, by: GivenBy) -> Counts
    requires { lookups c < 65535 }
    ensures { result ≡ counted_by c by }
{
    let mut more = c;
    match by {
        GivenBy::ExactName => more.exact = c.exact + 1,
        GivenBy::StarEntry => more.star = c.star + 1,
        GivenBy::HookRule => more.hook = c.hook + 1,
        GivenBy::NoRule => more.nothing = c.nothing + 1,
        GivenBy::NoLookup => {}
    }
    more
}
