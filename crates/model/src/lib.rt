// model: specs/ says what every call means. Here are the types that the definitions of exceptions speak of (`Route` the
// code does too), and the one function that carries the claims about single calls; those about lists of calls are in
// `claims`.
#![tactic(auto)]

ghost use Rattle.std.specs.Prelude.{true, ◌≡◌};
ghost use Rattle.model.specs.Answers.{Answers};
ghost use Rattle.model.specs.Cases.{Cases};
ghost use Rattle.model.specs.Refusals.{Refusals};

use record_exception::Place;
use records::tables::Tables;

// The order of handlers that an exception type takes. That there is none is a way of its own, as the scope lists them.
#[derive(Clone, Copy, PartialEq, Eq)]
pub enum Route {
    Ordinary,
    JobDebuggers,
    DebuggerOnly,
    ToExiting,
    // No exception type.
    NoType,
}

// Who takes an exception, if anybody does, and the tables with the hung-up levels on the way made unbound.
#[derive(Drop)]
pub struct Search {
    pub tables: Tables,
    pub at: Option<Place>,
}

// Carries the claims about single calls as its promise.
#[tactic(auto, using(crate::proofs::Cases::cases, crate::proofs::Refusals::refusals, crate::proofs::Answers::answers))]
pub fn claims() -> bool
    ensures { (result ≡ true) × Cases × Refusals × Answers }
{
    true
}
