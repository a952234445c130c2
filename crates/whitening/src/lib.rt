// The fit's measurements: the timing covariance of chosen receptions and its factor, the residuals
// and slopes that the factor whitens, the altitude's row after them, and the normal equations of all
// rows. From `covariance` to `normal` of solve.rs.
#![tactic(auto)]

mod rows;
mod slopes;
mod sums;
mod timing;

pub use rows::{place, push_height, ranges_of, residuals, row_place, whitened};
pub use sums::{completed, evaluated, normal, plus_multiple, plus_products};
pub use timing::{covariance, sigmas, whitener};

// The normal equations of a fit: the information (4 x 4, row by row), the gradient and the cost.
#[derive(Clone, Copy)]
pub struct Equations {
    pub information: [f64; 16],
    pub gradient: [f64; 4],
    pub cost: f64,
}
