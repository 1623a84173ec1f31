// A refusal and its place as one number: MODEL 7.
ghost use Rattle.std.specs.Prelude.{◌≡◌};
ghost use Rattle.sets.specs.Placed.{with_place};

pub fn with_place(number: u8, place: u16) -> u32
    ensures { result ≡ with_place number place }
{
    u32::from(number) + 100 * u32::from(place)
}
