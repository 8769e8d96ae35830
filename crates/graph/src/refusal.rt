// Why a call is turned back.
ghost use Rattle.std.specs.Prelude.{◌≡◌};
ghost use Rattle.graph.specs.Refusals.{refusal_number};

// The number of a refusal is that of document 01, and from 19 to 29 that of document 02, which retires 18.
#[derive(Clone, Copy, PartialEq, Eq)]
pub enum Refusal {
    NeitherKeptNorCleared = 0,
    NotALetter = 1,
    SizeOutside = 2,
    KeysNotRising = 3,
    CountOutside = 4,
    LengthUnlike = 5,
    NotFinite = 6,
    VariancePivot = 7,
    BadRecord = 8,
    KeptAndCleared = 9,
    NameTaken = 10,
    NoSuchKey = 11,
    PastLimit = 12,
    FactorStoreShort = 13,
    StoreShort = 14,
    ClearedPivot = 15,
    MarginalPivot = 16,
    ResultNotFinite = 17,
    NotLive = 19,
    NotSymmetric = 20,
    OrderUnlike = 21,
    NoSuchGraph = 30,
}

// The number of a refusal.
pub fn code(why: Refusal) -> usize
    ensures { result ≡ refusal_number why }
{
    why as usize
}
