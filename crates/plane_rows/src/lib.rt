// A row of a plane: the cells that count under a shift, the levels that meet there, and the plane's values. Above this crate nothing sees a shift or a border, nor
// which levels a plane is made of.
#![tactic(auto)]

pub mod overlaps; // overlaps.rt: which places count along one side under a shift
pub mod columns; // columns.rt: which columns count under a shift, in one stretch or two
pub mod view; // view.rt: checked inputs with the rows and columns that count
pub mod factors; // factors.rt: the planes of ones and levels that a plane is the product of
pub mod level_rows; // level_rows.rt: a row of such a plane, lent or copied
pub mod plane_values; // plane_values.rt: levels and products of levels as numbers of 64 bits
pub mod planes; // planes.rt: a row of any plane
