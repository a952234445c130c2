// What a record holds.
use problem::Altitude;
use record::Fix;

// The answer number, its detail, the receptions considered, the altitude and the fix. In a refusal
// there is no altitude, and every number of the fix is 0.
#[derive(Clone, Copy)]
pub struct Content {
    pub answer: u32,
    pub detail: u32,
    pub n: u32,
    pub altitude: Altitude,
    pub fix: Fix,
}
