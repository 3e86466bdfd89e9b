// Inputs that checks have passed: what the checks found is in their types.
ghost use Rattle.std.specs.Prelude.{◌≡◌, T, length};
ghost use Rattle.spec_picture.specs.Frame.{frame_legal, cells};
ghost use Rattle.spec_picture.specs.Window.{window as window_of, window_legal, fits};
ghost use Rattle.spec_picture.specs.Shape.{shape_number};
ghost use Rattle.spec_picture.specs.Picture.{Levels};

use crate::{Frame, Plane, Shape, Shift};

// A legal window: its shape, and its two numbers as the call gave them, which `legal_windows` and `shape` alone read. No enum with the numbers of each shape: `shape`
// would tell three cases apart as it does now, and `given`, by which the contracts speak of a window, three more.
#[derive(Clone, Copy)]
pub struct CheckedWindow {
    pub shape: Shape,
    pub first: i32,
    pub second: i32,
    pub ghost legal: { T (window_legal (window_of (shape_number shape) first second)) },
}

// Two pictures of a legal frame.
#[derive(Clone, Copy)]
pub struct CheckedPictures<'a> {
    pub frame: Frame,
    pub f: &'a [i16],
    pub g: &'a [i16],
    pub ghost legal: { T (frame_legal frame) },
    pub ghost length_f: { length f.now ≡ cells frame },
    pub ghost length_g: { length g.now ≡ cells frame },
    pub ghost levels_f: { Levels f.now },
    pub ghost levels_g: { Levels g.now },
}

// Two pictures of a legal frame, a shift, and a plane. The fields of `CheckedPictures` once more, and no such field: every function reads them, and would reach
// through one more name. Nor is a legal frame a type of its own beside `Frame`, which the definitions take. Of the shift nothing is asked: the checks refuse one beyond
// limits, and the functions that take a checked source promise their sums under any. A plane's number above 5 is summed as `Plane::Product` is (`product-above` in
// `proofs/Planes`).
#[derive(Clone, Copy)]
pub struct CheckedSource<'a> {
    pub frame: Frame,
    pub f: &'a [i16],
    pub g: &'a [i16],
    pub shift: Shift,
    pub plane: Plane,
    pub ghost legal: { T (frame_legal frame) },
    pub ghost length_f: { length f.now ≡ cells frame },
    pub ghost length_g: { length g.now ≡ cells frame },
    pub ghost levels_f: { Levels f.now },
    pub ghost levels_g: { Levels g.now },
}

// The same with a window that fits the columns where they wrap: "they are accepted when .. none that looks at them alone holds".
#[derive(Clone, Copy)]
pub struct CheckedInputs<'a> {
    pub source: CheckedSource<'a>,
    pub window: CheckedWindow,
    pub ghost fitting: { T (fits source.frame (window_of (shape_number window.shape) window.first window.second)) },
}

impl<'a> CheckedInputs<'a> {
    ghost use Rattle.std.specs.Prelude.{◌≡◌};
    ghost use Rattle.spec_picture.specs.Picture.{inputs};
    ghost use Rattle.spec_picture.specs.Plane.{plane_number};
    ghost use Rattle.spec_picture.specs.Checked.{given, checked_inputs};

    // The same inputs with another plane. Field by field, since a literal of a struct with ghost fields takes no `..`.
    pub fn on_plane(&self, plane: Plane) -> CheckedInputs<'a>
        ensures { checked_inputs result ≡ inputs self.now.source.frame self.now.source.f.now self.now.source.g.now (given self.now.window) self.now.source.shift (plane_number plane) }
    {
        let source = CheckedSource {
            frame: self.source.frame,
            f: self.source.f,
            g: self.source.g,
            shift: self.source.shift,
            plane,
        };
        CheckedInputs {
            source,
            window: self.window,
        }
    }
}

// A number for each cell of a picture of a legal frame: a table, whatever it holds.
#[derive(Clone, Copy)]
pub struct CheckedTable<'a> {
    pub frame: Frame,
    pub numbers: &'a [i64],
    pub ghost legal: { T (frame_legal frame) },
    pub ghost full: { length numbers.now ≡ cells frame },
}
