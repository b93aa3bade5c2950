// error: why a call is refused, and the number that says so. `ZxError` has those of error.rs that the scope names,
// unchanged; `Refusal` has the port's own besides, by which a call is turned back before the Rust would be asked. Four
// of the Rust's are outcomes and no refusals: TimedOut, ShouldWait, Canceled and Stop, with which a call may have
// changed a record.
#![tactic(auto)]

ghost use Rattle.std.specs.Prelude.{◌≡◌};
ghost use Rattle.error.specs.Numbers.{zx_number, number_of, answer_of};
ghost use Rattle.error.specs.declared.Refusal.TheVariants.{Zx};

#[derive(Clone, Copy, PartialEq, Eq)]
pub enum ZxError {
    InvalidArgs,
    BadState,
    TimedOut,
    ShouldWait,
    Canceled,
    AlreadyExists,
    AlreadyBound,
    AccessDenied,
    Stop,
    Next,
}

impl ZxError {
    pub fn number(self) -> i64
        ensures { result ≡ zx_number self }
    {
        match self {
            ZxError::InvalidArgs => -10,
            ZxError::BadState => -20,
            ZxError::TimedOut => -21,
            ZxError::ShouldWait => -22,
            ZxError::Canceled => -23,
            ZxError::AlreadyExists => -26,
            ZxError::AlreadyBound => -27,
            ZxError::AccessDenied => -30,
            ZxError::Stop => -60,
            ZxError::Next => -61,
        }
    }
}

#[derive(Clone, Copy, PartialEq, Eq)]
pub enum Refusal {
    // A name past its table.
    PastTable,
    // A new name already used.
    Used,
    // An old name never made, or a dropped token.
    NotMade,
    // A field outside its list.
    BadField,
    // A call out of turn.
    OutOfTurn,
    // A spot where the Rust panics.
    Panics,
    // A suspend count that is full.
    Full,
    // What the Rust answers.
    Zx(ZxError),
}

impl From<ZxError> for Refusal {
    ghost from_gives = { λ error refusal. refusal ≡ Zx error };

    fn from(error: ZxError) -> Refusal {
        Refusal::Zx(error)
    }
}

impl Refusal {
    pub fn number(self) -> i64
        ensures { result ≡ number_of self }
    {
        match self {
            Refusal::PastTable => 101,
            Refusal::Used => 102,
            Refusal::NotMade => 103,
            Refusal::BadField => 104,
            Refusal::OutOfTurn => 105,
            Refusal::Panics => 106,
            Refusal::Full => 107,
            Refusal::Zx(error) => error.number(),
        }
    }
}

// The number with which a call is answered: 0 if it is accepted.
pub fn answer_of(outcome: Result<(), Refusal>) -> i64
    ensures { result ≡ answer_of outcome }
{
    match outcome {
        Ok(()) => 0,
        Err(refusal) => refusal.number(),
    }
}
