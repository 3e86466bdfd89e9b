// A legal window by its rows and by its columns, its ends clipped to the picture, and when the slopes of its edges are the faster way.
// It knows how large a picture is, and nothing of what is in it.
#![tactic(auto)]

pub mod shape; // shape.rt: how far a window goes up and down, and to the sides
pub mod reaches; // reaches.rt: how far it goes in one row, and in one column
pub mod clip; // clip.rt: its ends, clipped to the picture
pub mod choose_method; // choose_method.rt: whether many rows are computed by the slopes of its edges
