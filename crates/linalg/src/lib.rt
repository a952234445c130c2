// Dense linear algebra over `f64` after linalg.rs, in one fixed order of operations: the same inputs
// give the same bits. Matrices are square, row by row, of a size up to 32. Only symmetric positive
// definite systems are solved, by Cholesky; a matrix that is not positive definite is refused.
// The methods hand over to the crate dense, which works on lent arrays of any length.
#![tactic(auto)]

mod cholesky;
mod matrix;
mod vec3;

pub use cholesky::Cholesky;
pub use matrix::Matrix;
pub use vec3::{Vec3, add, dot, norm, scale, sub};
