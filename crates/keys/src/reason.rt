// Why a call is refused, as its caller is told: by a number, and for some by one value that goes with it.
// Every refusal of the crates above is a reason; promises are made of results by what their refusals tell.
ghost use Rattle.keys.specs.Refusals.{Code};
ghost use Rattle.std.specs.Option.{option_to_list};
ghost use Rattle.std.specs.Prelude.{◌≡◌};

pub trait Reason: Copy {
    // its number, and the values that go with it
    ghost code: { Self → Code };

    // The number by which it is told.
    fn number(self) -> u8
        ensures answer { result ≡ (code self).number };

    // The value that is told with the number, if there is one.
    fn value(self) -> Option<u32>
        ensures answer { option_to_list result ≡ (code self).values };
}
