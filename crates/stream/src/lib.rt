// stream: what holds of the recorder's definitions for a whole stream of commands.
// specs/Stream.antt says what is written for it, and that no cut into parts changes it.
#![tactic(auto)]

ghost use Rattle.std.specs.Prelude.{true, ◌≡◌};
ghost use Rattle.stream.specs.Stream.{Stream};

// No cut of the input into parts changes what is written, and that is a line for each answer of the model.
#[tactic(auto, using(crate::proofs::Whole::stream))]
pub fn claims() -> bool
    ensures { (result ≡ true) × Stream }
{
    true
}
