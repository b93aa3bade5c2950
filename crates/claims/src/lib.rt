// claims: what holds of all lists of calls: the invariants of every state, that a trip which loses its species reader
// stops whole, where a closed exception goes, and that no trip meddles with another. specs/ says it.
#![tactic(auto)]

ghost use Rattle.std.specs.Prelude.{true, ◌≡◌};
ghost use Rattle.claims.specs.Closings.{Closings};
ghost use Rattle.claims.specs.Reachable.{Reachable};
ghost use Rattle.claims.specs.Separation.{Separation};
ghost use Rattle.claims.specs.SeparationRows.{SeparationRows};
ghost use Rattle.claims.specs.StopsWhole.{StopsWhole};

// Carries the claims as its promise.
#[tactic(auto, using(crate::proofs::Closings::closings, crate::proofs::Separation::Rows::separation_rows, crate::proofs::Separation::Whole::separation, crate::proofs::Sound::reachable, crate::proofs::StopsWhole::stops_whole))]
pub fn claims() -> bool
    ensures { (result ≡ true) × Reachable × StopsWhole × Closings × Separation × SeparationRows }
{
    true
}
