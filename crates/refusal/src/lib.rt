// The refusal record, and the causes' numbers. What is done or refused is `Result<(), Refusal>`.
#![tactic(auto)]

ghost use Rattle.std.specs.Prelude.{◌≡◌};

// Why a call was declined: the cause's number, and its place: a row, a vertex or a byte of a text, by the cause, and 0 where the cause has none.
// Rows and vertices are counted from 1, the bytes of a text from 0.
#[derive(Clone, Copy)]
pub struct Refusal {
    pub number: u32,
    pub place: u32,
}

// The causes, by the numbers that the document gives them and that C knows: `Cause::BadEnd as u32` is 4. 5 is not used.
#[derive(Clone, Copy)]
pub enum Cause {
    BadJunctionCount = 1,
    TooManyRows = 2,
    BadLengths = 3,
    BadEnd = 4,
    BadMark = 6,
    BadSource = 7,
    ShortMatrix = 8,
    BadMarkCount = 9,
    NotJoined = 10,
    NoNetwork = 11,
    BadText = 12,
    BadEdgeCount = 13,
    BadRuns = 14,
    RepeatedRow = 15,
    ShortRecords = 16,
    TableFull = 17,
    NotInUse = 18,
    NoOutlets = 19,
    NotTrench = 20,
    NotJunction = 21,
    NotPrice = 22,
    NotMark = 23,
    NotCount = 24,
    MixedNames = 25,
    TooManyNames = 26,
    NotStruck = 27,
    BadSeparator = 28,
    BadNamePlaces = 29,
    ShortText = 30,
}

impl Refusal {
    // The refusal with this number and place 0.
    pub fn of(number: u32) -> Refusal
        ensures { result ≡ record { number = number; place = 0 } }
    {
        Refusal { number, place: 0 }
    }
}
