// The worked examples of codes and vehicle keys, in one statement.
// It is a theorem on the definitions that the readers are held to.
ghost use Rattle.std.specs.Prelude.{◌≡◌, true};
ghost use Rattle.text.specs.Examples.{TextExamples};

// Whether the examples hold, which they do.
#[tactic(auto, unfolding(crate::specs::Codes::code_of, crate::specs::VehicleKeys::vehicle_key_of))]
pub fn text_examples_hold() -> bool
    ensures answer { result ≡ true }
    ensures examples { TextExamples }
{
    true
}
