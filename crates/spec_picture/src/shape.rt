// The shapes of windows, by name.
ghost use Rattle.std.specs.Prelude.{◌≡◌, [], ◌∷◌, not};
ghost use Rattle.spec_picture.specs.Refusal.{◌when◌, refusal, outcome};
ghost use Rattle.spec_picture.specs.Answers.{outcome_by};
ghost use Rattle.spec_picture.specs.Shape.{shape_number, is_shape};

use crate::Refusal;

// "shape 1, .. rectangle", "shape 2, .. diamond", "shape 3, .. hexagon"
#[derive(Clone, Copy, Debug, PartialEq, Eq)]
pub enum Shape {
    Rectangle,
    Diamond,
    Hexagon,
}

// A shape by its number, which is refused where it is "not 1 to 3".
impl TryFrom<u32> for Shape {
    type Error = Refusal;

    ghost try_from_gives = { λ n r. outcome_by shape_number r ≡ outcome (refusal ((3 when not (is_shape n)) ∷ [])) n };

    fn try_from(number: u32) -> Result<Shape, Refusal> {
        match number {
            1 => Ok(Shape::Rectangle),
            2 => Ok(Shape::Diamond),
            3 => Ok(Shape::Hexagon),
            _ => Err(Refusal::Window),
        }
    }
}
