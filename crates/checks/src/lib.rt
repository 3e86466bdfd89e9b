// The first refusal of each operation, or its inputs with what the checks have found. No sum is made here, and no area is written.
#![tactic(auto, unfolding(spec_picture::specs::Refusal::refusal, spec_picture::specs::Refusal::outcome))]

pub mod legal_frames; // legal_frames.rt: the limits of a frame
pub mod legal_windows; // legal_windows.rt: the limits of a window and of a shift
pub mod levels; // levels.rt: what the type of a picture says of its levels
pub mod operations; // operations.rt: the lines of each operation, as the table of refusals has them

ghost use Rattle.std.specs.Prelude.{◌≡◌, not, [], ◌∷◌};
ghost use Rattle.spec_picture.specs.Refusal.{◌when◌, refusal, outcome};
ghost use Rattle.spec_picture.specs.Answers.{number, refused_by, outcome_by};
ghost use Rattle.spec_picture.specs.Picture.{source};
ghost use Rattle.spec_picture.specs.Plane.{plane_number};
ghost use Rattle.spec_picture.specs.Checked.{given, pictures, checked_pictures, checked_source};
ghost use Rattle.spec_picture.specs.Conditions.{check3, picture_checks};

use crate::legal_frames::{frame_legal, is_full};
use crate::legal_windows::numbers_legal;
use crate::levels::levels_fit;
use spec_picture::{
    CheckedPictures, CheckedSource, CheckedWindow, Frame, Plane, Refusal, Shape, Shift, Window,
};

// One line of the table: the call is turned down unless the input is sound.
fn require(sound: bool, line: Refusal) -> Result<(), Refusal>
    ensures { refused_by result ≡ refusal ((number line when not sound) ∷ []) }
{
    if sound { Ok(()) } else { Err(line) }
}

// 1, and 2 for each of two pictures, as each operation gives them.
fn check_pictures<'a>(
    frame: Frame,
    f: &'a [i16],
    g: &'a [i16],
) -> Result<CheckedPictures<'a>, Refusal>
    ensures { outcome_by checked_pictures result ≡ outcome (refusal (picture_checks frame f.now g.now)) (pictures frame f.now g.now) }
{
    require(frame_legal(frame), Refusal::Size)?;
    require(is_full(frame, f.len()), Refusal::Length)?;
    require(is_full(frame, g.len()), Refusal::Length)?;
    levels_fit(f);
    levels_fit(g);
    Ok(CheckedPictures { frame, f, g })
}

// 3. A function and no `TryFrom<Window>`, which would have to be beside the type in `spec_picture`, below the tests of the limits; and so `check_inputs`.
pub fn check_window(window: Window) -> Result<CheckedWindow, Refusal>
    ensures { outcome_by given result ≡ outcome (refusal (check3 window ∷ [])) window }
{
    let shape = Shape::try_from(window.shape)?;
    let legal = numbers_legal(shape, window.first, window.second);
    require(legal, Refusal::Window)?;
    Ok(CheckedWindow {
        shape,
        first: window.first,
        second: window.second,
    })
}

// The pictures with a shift and a plane.
fn with_shift<'a>(pictures: &CheckedPictures<'a>, shift: Shift, plane: Plane) -> CheckedSource<'a>
    ensures { checked_source result ≡ source pictures.now.frame pictures.now.f.now pictures.now.g.now shift (plane_number plane) }
{
    CheckedSource {
        frame: pictures.frame,
        f: pictures.f,
        g: pictures.g,
        shift,
        plane,
    }
}
