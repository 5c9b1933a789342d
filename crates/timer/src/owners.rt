ghost use Rattle.std.specs.Prelude.{◌≡◌, if◌then◌else◌, nat_lt, slice_index};

/// The owner's number of those that are kept for each owner; 0 for an owner above 63.
pub fn number_of(numbers: &[u16; 64], owner: u8) -> usize
    ensures { result ≡ (if nat_lt owner 64 then slice_index numbers.now owner else 0) }
{
    numbers
        .get(usize::from(owner))
        .map_or(0, |number| usize::from(*number))
}
