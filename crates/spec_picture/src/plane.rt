// The planes, by name.
ghost use Rattle.std.specs.Prelude.{◌≡◌, [], ◌∷◌, leb};
ghost use Rattle.spec_picture.specs.Refusal.{refusal, outcome};
ghost use Rattle.spec_picture.specs.Answers.{outcome_by};
ghost use Rattle.spec_picture.specs.Conditions.{check5};
ghost use Rattle.spec_picture.specs.Plane.{plane_number};

use crate::Refusal;

// What a plane's value is at a cell that counts: "plane 0, one; 1, f(m, n); 2, g(m+u, n+v); 3 and 4, the squares of those two; 5, their product".
#[derive(Clone, Copy, Debug, PartialEq, Eq)]
pub enum Plane {
    One,
    F,
    G,
    FSquared,
    GSquared,
    Product,
}

impl Plane {
    // The values are ones and levels, which 16 bits hold.
    pub fn is_narrow(self) -> bool
        ensures { result ≡ leb (plane_number self) 2 }
    {
        match self {
            Plane::One | Plane::F | Plane::G => true,
            Plane::FSquared | Plane::GSquared | Plane::Product => false,
        }
    }
}

// A plane by its number, which is refused where it is above 5.
impl TryFrom<u32> for Plane {
    type Error = Refusal;

    ghost try_from_gives = { λ n r. outcome_by plane_number r ≡ outcome (refusal (check5 n ∷ [])) n };

    fn try_from(number: u32) -> Result<Plane, Refusal> {
        match number {
            0 => Ok(Plane::One),
            1 => Ok(Plane::F),
            2 => Ok(Plane::G),
            3 => Ok(Plane::FSquared),
            4 => Ok(Plane::GSquared),
            5 => Ok(Plane::Product),
            _ => Err(Refusal::Plane),
        }
    }
}
