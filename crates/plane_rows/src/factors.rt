// The factors of a plane: planes 0, 1 and 2 have ones and levels, and every other plane is a product of two of these.
ghost use Rattle.std.specs.Prelude.{◌≡◌, leb, ℤ};
ghost use Rattle.spec_picture.specs.Picture.{plane_value};
ghost use Rattle.spec_picture.specs.Plane.{plane_number};
ghost use Rattle.plane_rows.specs.Factors.{factors_value, is_level};

use spec_picture::Plane;

// A plane of ones or levels: "plane 0, one; 1, f(m, n); 2, g(m+u, n+v)".
#[derive(Clone, Copy)]
pub enum Factor {
    One,
    F,
    G,
}

// What a plane is made of. A square has its factor once, so that its row is fetched once, and its loops read one row.
#[derive(Clone, Copy)]
pub enum Factors {
    Level(Factor),
    Square(Factor),
    Product(Factor, Factor),
}

// The factors of a plane: "3 and 4, the squares of those two; 5, their product".
#[tactic(auto, unfolding(spec_picture::specs::Picture::plane_value))]
pub fn factors_of(plane: Plane) -> Factors
    ensures values { (x y : ℤ) → plane_value (plane_number plane) x y ≡ factors_value result x y }
    ensures level { is_level result ≡ leb (plane_number plane) 2 }
{
    match plane {
        Plane::One => Factors::Level(Factor::One),
        Plane::F => Factors::Level(Factor::F),
        Plane::G => Factors::Level(Factor::G),
        Plane::FSquared => Factors::Square(Factor::F),
        Plane::GSquared => Factors::Square(Factor::G),
        Plane::Product => Factors::Product(Factor::F, Factor::G),
    }
}
