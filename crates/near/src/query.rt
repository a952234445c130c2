// Which queries are good: document 02, item 12.
ghost use Rattle.std.specs.Prelude.{◌≡◌, ◌&&◌};
ghost use Rattle.near.specs.Near as near;

use linalg::Vec3;

// 10^8 metres, beyond which nothing is asked for.
const FARTHEST: f64 = 100_000_000.0;

// Whether x is finite and within 10^8 in size.
fn good_size(x: f64) -> bool
    ensures { result ≡ near.good_size x }
{
    binary64::is_finite(x) && binary64::abs(x) <= FARTHEST
}

#[tactic(auto, unfolding(crate::specs::Near::good_point))]
pub fn good_point(point: Vec3) -> bool
    ensures { result ≡ near.good_point point }
{
    good_size(point[0]) && good_size(point[1]) && good_size(point[2])
}

// A radius of -0 is not negative.
#[tactic(auto, unfolding(crate::specs::Near::good_radius))]
fn good_radius(radius: f64) -> bool
    ensures { result ≡ near.good_radius radius }
{
    good_size(radius) && !(radius < 0.0)
}

pub fn good_query(point: Vec3, radius: f64) -> bool
    ensures { result ≡ (near.good_point point && near.good_radius radius) }
{
    good_point(point) && good_radius(radius)
}
