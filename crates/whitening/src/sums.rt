// The normal equations of whitened rows.
ghost use Rattle.std.specs.Prelude.{◌≡◌, List, ◌≤◌, Float};
ghost use Rattle.whitening.specs.Whitened.{rows, whitened};
ghost use Rattle.whitening.specs.Normal.{plus_products, plus_multiple, normal, evaluated};
ghost use Rattle.whitening.specs.Held.{Ranged, Slopes, Scratch, row_place, beside, chosen};

use crate::Equations;
use crate::rows::{push_height, residuals};
use crate::slopes::slopes;
use geo::Geodetic;
use problem::Altitude;

// m and the products of each two entries of a row.
pub fn plus_products(m: [f64; 16], row: [f64; 4]) -> [f64; 16]
    ensures { result ≡ plus_products m row }
{
    let a = row[0];
    let b = row[1];
    let c = row[2];
    let d = row[3];
    [
        m[0] + a * a,
        m[1] + a * b,
        m[2] + a * c,
        m[3] + a * d,
        m[4] + b * a,
        m[5] + b * b,
        m[6] + b * c,
        m[7] + b * d,
        m[8] + c * a,
        m[9] + c * b,
        m[10] + c * c,
        m[11] + c * d,
        m[12] + d * a,
        m[13] + d * b,
        m[14] + d * c,
        m[15] + d * d,
    ]
}

// v and a row times value.
pub fn plus_multiple(v: [f64; 4], row: [f64; 4], value: f64) -> [f64; 4]
    ensures { result ≡ plus_multiple v row value }
{
    [
        v[0] + row[0] * value,
        v[1] + row[1] * value,
        v[2] + row[2] * value,
        v[3] + row[3] * value,
    ]
}

// The information, the gradient and the cost of `count` rows.
pub fn normal(
    r: &[f64; 33],
    a: &[f64; 33],
    b: &[f64; 33],
    c: &[f64; 33],
    d: &[f64; 33],
    count: usize,
) -> Equations
    requires { count ≤ 33 }
    ensures { result ≡ normal (rows count r.now a.now b.now c.now
        d.now) }
{
    let mut information = [0.0; 16];
    let mut gradient = [0.0; 4];
    let mut cost = 0.0;
    for i in 0..count {
        let value = r[i];
        let row = [a[i], b[i], c[i], d[i]];
        cost = cost + value * value;
        let g = plus_multiple(gradient, row, value);
        gradient = g;
        let m = plus_products(information, row);
        information = m;
    }
    Equations {
        information,
        gradient,
        cost,
    }
}

// The normal equations of the rows of k receptions and the altitude at the parameters p, where their
// residuals r, their ranges and the altitude's place are known. What a, b, c and d hold afterwards is
// open: only their room is promised.
pub fn completed(
    sites: &[f64; 96],
    k: usize,
    l: &[f64; 1024],
    altitude: Altitude,
    p: [f64; 4],
    geodetic: Geodetic,
    ranges: &[f64; 32],
    r: &[f64; 33],
    a: &mut [f64; 33],
    b: &mut [f64; 33],
    c: &mut [f64; 33],
    d: &mut [f64; 33],
) -> Equations
    requires k_bound { (k ≤ 32) × Ranged sites.now p k ranges.now × (geodetic ≡ row_place altitude p) }
    requires slopes { Slopes a.old b.old c.old d.old }
    ensures value { (z : List Float) → result
        ≡ normal (beside r.now (whitened (chosen k sites.now z l.now altitude) p)) }
    ensures slopes_2 { Slopes a.new b.new c.new d.new }
{
    let count = slopes(sites, k, l, altitude, p, geodetic, ranges, a, b, c, d);
    normal(r, &*a, &*b, &*c, &*d, count)
}

// The normal equations of k receptions and the altitude at the parameters p, where the altitude's place
// is known. What the seven arrays hold afterwards is open: only their room is promised.
pub fn evaluated(
    sites: &[f64; 96],
    z: &[f64; 32],
    k: usize,
    l: &[f64; 1024],
    altitude: Altitude,
    p: [f64; 4],
    geodetic: Geodetic,
    r: &mut [f64; 33],
    squared: &mut [f64; 32],
    ranges: &mut [f64; 32],
    a: &mut [f64; 33],
    b: &mut [f64; 33],
    c: &mut [f64; 33],
    d: &mut [f64; 33],
) -> Equations
    requires k_bound { (k ≤ 32) × (geodetic ≡ row_place altitude p) }
    requires scratch { Scratch r.old squared.old ranges.old a.old b.old c.old d.old }
    ensures value { result ≡ evaluated (chosen k sites.now z.now l.now altitude) p }
    ensures scratch_2 { Scratch r.new squared.new ranges.new a.new b.new
        c.new d.new }
{
    let part = residuals(sites, z, k, l, p, r, squared, ranges);
    let cost = push_height(altitude, geodetic, k, part, r);
    completed(
        sites, k, l, altitude, p, geodetic, &*ranges, &*r, a, b, c, d,
    )
}
