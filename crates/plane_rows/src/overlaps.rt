// Which places count along one side of the picture under a shift.
// For callers that have checked their inputs.

ghost use Rattle.std.specs.Prelude.{◌≡◌};
ghost use Rattle.plane_rows.specs.Overlaps.{Overlapping};

mod overlap; // overlap.rt: the places that count along one side

pub use overlap::Overlap;

// Which of n places count where those of g are shifted by `by`.
#[inline(always)]
pub fn overlap_of(n: usize, by: i32) -> Overlap
    ensures { Overlapping n by result }
{
    let far = by.unsigned_abs() as usize;
    if n <= far {
        return Overlap {
            first: 0,
            end: 0,
            first_in_g: 0,
        };
    }
    if by < 0 {
        return Overlap {
            first: far,
            end: n,
            first_in_g: 0,
        };
    }
    Overlap {
        first: 0,
        end: n - far,
        first_in_g: far,
    }
}
