// What is open to callers, under its C names: a module a subject, as in include/mlat_solver.h (version, numbers,
// geodesy, claims, solve, states, streams, records, positions, archives, algebra, nearby, displays, planning). Each
// function takes every value and demands nothing. An array of fixed length that is lent as `&mut` is written whole, or
// stays as it was where the call is refused.
#![tactic(auto)]

mod algebra;
mod archives;
mod claims;
mod displays;
mod geodesy;
mod nearby;
mod numbers;
mod planning;
mod positions;
mod records;
mod solve;
mod states;
mod streams;
mod version;

pub use algebra::{
    mlat_cholesky, mlat_forward_rows, mlat_inverse_diagonal, mlat_inverse_triangular, mlat_sandwich,
};
pub use archives::{mlat_from_archive, mlat_to_archive};
pub use claims::{mlat_chi2_limit, mlat_enu_covariance, mlat_horizontal_sigma_m};
pub use displays::{mlat_read_asterix, mlat_to_asterix, mlat_write_asterix};
pub use geodesy::{mlat_enu_basis, mlat_from_ecef, mlat_from_mm, mlat_to_ecef, mlat_to_mm};
pub use nearby::{mlat_nearest, mlat_within};
pub use numbers::{mlat_atan2, mlat_cos, mlat_hypot, mlat_round, mlat_sin, mlat_sincos, mlat_sqrt};
pub use planning::mlat_clash_patterns;
pub use positions::{mlat_from_wire, mlat_to_wire};
pub use records::{mlat_read_record, mlat_record_at, mlat_write_record};
pub use solve::{mlat_solve, mlat_solve_receptions};
pub use states::mlat_why;
pub use streams::{mlat_cut_lengths, mlat_solve_next};
pub use version::mlat_version;
