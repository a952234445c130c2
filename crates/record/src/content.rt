// What a fix record shows.
use geo::Geodetic;

// A fix: the used receptions as a mask, their degrees of freedom, the ECEF position (metres), the
// transmit time t (metres of light after the reference), the position on WGS 84, the transmit time in
// picoseconds, the published covariance row by row (square metres), and chi-square.
#[derive(Clone, Copy)]
pub struct Fix {
    pub mask: u32,
    pub dof: u32,
    pub ecef: [f64; 3],
    pub t: f64,
    pub position: Geodetic,
    pub transmit_ps: i64,
    pub r0: [f64; 3],
    pub r1: [f64; 3],
    pub r2: [f64; 3],
    pub chi2: f64,
}
