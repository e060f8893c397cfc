// Vectors, rotations and poses in f64, each operation rounded once in the order written, and the tests behind the refusals of unfit numbers.
#![tactic(auto)]

pub mod approx;
pub mod limits;
pub mod magnitude_laws;
pub mod pose;
pub mod refusal;
pub mod root;
pub mod vector;
pub mod vector2;
pub mod wops;
