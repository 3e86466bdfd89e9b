// What other crates may rest on: the public operations and their types. Each name is declared in one crate below, and its promise with it.
#![tactic(auto)]

// What a call is given: a frame, a cell of it, a window, a shift, a plane, and two pictures with them.
pub use spec_picture::{Cell, Frame, Inputs, Plane, Shape, Shift, Source, Window};

// What turns a call down: a line of document 01's table.
pub use spec_picture::Refusal;

// The sum of a plane over the window on a cell, straight from the levels.
pub use direct_sum::direct_sum;

// The cumulative table: building it, and reading the window's sum on a cell.
pub use table::{build, read};

// The row session: the sums of the next rows, by a session, or by its position as a plain number.
pub use row_session::{Session, rows_plain};

// The six sums of a cell, and the answers that have cases.
pub use spec_statistics::{Coefficient, Grain, Sums, Voice};

// Mean, variance and deviation of six sums.
pub use statistics::moments::{deviation, mean, variance};

// The voice answer of six sums.
pub use statistics::voices::voice_answer;

// The coefficient of six sums.
pub use statistics::correlation::coefficient;

// The mean over the window at every cell.
pub use smoothing::smooth;

// The first steady cell.
pub use steady_search::steady;

// What the program panel prints for a text, and the length that the longest print needs.
pub use panel_text::{ROOM, render};
