//! Where a location stands in an ascending list.
ghost use Rattle.std.specs.Prelude.{◌≡◌, ◌<◌, ℕ, true, false, length, slice_index, IfSome, IfNone};
ghost use Rattle.std.specs.List.Sorted.{IsStrictlyIncreasing};
ghost use Rattle.sp_lattice.specs.System.{has};

/// The place of `location` in an ascending list; `None` exactly where it isn't there.
pub(crate) fn find_place(places: &[u32], location: u32) -> Option<usize>
    requires { IsStrictlyIncreasing places.now }
    ensures within { IfSome result (λ place. place < length places.now) }
    ensures found { IfSome result (λ place. slice_index places.now place ≡ location) }
    ensures absent { IfNone result (has location places.now ≡ false) }
{
    match places.binary_search(&location) {
        Ok(place) => Some(place),
        Err(_) => None,
    }
}

/// The place of a location that is there.
pub(crate) fn place_of(places: &[u32], location: u32) -> usize
    requires ascends { IsStrictlyIncreasing places.now }
    requires there { has location places.now ≡ true }
    ensures within { result < length places.now }
    ensures found { slice_index places.now result ≡ location }
{
    match find_place(places, location) {
        Some(place) => place,
        None => unreachable!(),
    }
}
