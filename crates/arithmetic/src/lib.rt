// What the language lacks, or lacks proofs of: wrapping sums, products past 64 bits, reciprocals. It knows no picture, window or plane.
#![tactic(auto)]

pub mod wrapping; // wrapping.rt: sums and differences that wrap at 64 bits
pub mod machine; // machine.rt: the product of two levels, the magnitude of a number
pub mod long_product; // long_product.rt: products past 64 bits
pub mod long_order; // long_order.rt: their order
pub mod quotients; // quotients.rt: the nearest quotient, by a reciprocal
