// Where marks stand.
ghost use Rattle.std.specs.Prelude.{◌≡◌};
ghost use Rattle.compile_claims.specs.Places.{places_at};

use wcc_base::Items;

/// The addresses of a mark, of those that are listed for each.
pub fn places_at(places: &[Items<u32>], mark: u32) -> &[u32]
    ensures { result.now ≡ places_at places.now mark }
{
    match places.get(mark as usize) {
        Some(places) => places.as_slice(),
        None => &[],
    }
}
