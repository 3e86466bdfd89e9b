// The places that count along one side of the picture.
ghost use Rattle.std.specs.Prelude.{◌≡◌, ◌≤◌, min, max};

// The places that count along one side of the picture under a shift: from `first` up to `end`; the place of g that belongs to
// `first` is `first_in_g`.
#[derive(Clone, Copy)]
pub struct Overlap {
    pub first: usize,
    pub end: usize,
    pub first_in_g: usize,
    pub ghost ordered: { first ≤ end },
}

impl Overlap {
    // The place among these that is next to a place: of the places between two, those that are among these lie between their two.
    pub fn clip(&self, place: usize) -> usize
        ensures { result ≡ min (max place self.now.first) self.now.end }
    {
        place.max(self.first).min(self.end)
    }
}
