// Places: the words where code can stand.
ghost use Rattle.std.specs.Prelude.{◌≡◌, ◌<◌, IfSome};
ghost use Rattle.code_flow.specs.Places.{place_of, address_at, all_places};

/// How many words flash and scratchpad have.
pub const PLACES: usize = 0x20_4000;

/// The number of the word at an address, where code can stand there: those of flash come first,
/// then those of the scratchpad.
pub fn place(at: u32) -> Option<usize>
    ensures value { result ≡ place_of at }
    ensures small { IfSome result (λ p. p < all_places) }
{
    if at % 4 != 0 {
        return None;
    }
    if at < 0x80_0000 {
        return Some(at as usize / 4);
    }
    if 0x1000_0000 <= at && at < 0x1001_0000 {
        return Some(0x20_0000 + (at as usize - 0x1000_0000) / 4);
    }
    None
}

/// The address of a place.
pub fn address(place: usize) -> u32
    requires { place < all_places }
    ensures { result ≡ address_at place }
{
    if place < 0x20_0000 {
        4 * place as u32
    } else {
        0x1000_0000 + 4 * (place as u32 - 0x20_0000)
    }
}
