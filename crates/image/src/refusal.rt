// Why a run, a list or a listing is refused.
ghost use Rattle.std.specs.Prelude.{◌≡◌};
ghost use Rattle.image.specs.Refusals.{Numbers, refused};

// 1 to 14 are a run's, in the order in which they are due; then a list's own, before any of its screens; then a listing's own, after
// the run.
#[derive(Clone, Copy, Debug, PartialEq, Eq)]
pub enum Refusal {
    ImageWords = 1,
    NameBytes = 2,
    Budget = 3,
    WorkWords = 4,
    Header = 5,
    References = 6,
    Types = 7,
    Shapes = 8,
    Bodies = 9,
    Nesting = 10,
    EmptyPhi = 11,
    Cycle = 12,
    OutOfSteps = 13,
    TableWords = 14,
    List = 15,
    Ranges = 16,
    Slot = 17,
    ListingWords = 18,
}

// Its number, as hosts are given it.
impl From<Refusal> for u32 {
    ghost from_gives = { Numbers };

    fn from(r: Refusal) -> u32 {
        r as u32
    }
}

// The number of an outcome, as hosts are given it: 0 for none.
#[tactic(auto, unfolding(crate::specs::Refusals::refused))]
pub fn number_of(outcome: Result<(), Refusal>) -> u32
    ensures { result ≡ refused outcome }
{
    match outcome {
        Ok(()) => 0,
        Err(refusal) => u32::from(refusal),
    }
}
