// The inverse of a factor, and the inverse of its matrix made from it.
ghost use Rattle.std.specs.Prelude.{◌≡◌, ◌+◌, ◌*◌, ◌<◌, ◌≤◌, length};
ghost use Rattle.dense.specs.Mirrored.{mirrored_row_to, mirrored};
ghost use Rattle.dense.specs.Triangular.{lower_row_to, lower_inverse, columns_dot, diagonal_to};
ghost use Rattle.dense.specs.Triangular.{inverse_triangular, inverse_diagonal};

use crate::{at, dots, minus_dots, put, put_both};

// Row i of the factor's inverse, left of the diagonal.
#[tactic(auto, using(crate::proofs::Places::place))]
fn lower_row(l: &[f64], n: usize, i: usize, inv: &mut [f64])
    requires { (i < n) × (n * n ≤ length l.now) × (n * n ≤ length inv.old) }
    ensures { inv.new ≡ lower_row_to l.now n i inv.old i }
{
    for j in 0..i {
        let value = minus_dots(l, i * n + j, 1, &*inv, j * n + j, n, i - j, 0.0);
        put(&mut *inv, n, i, j, value / at(l, n, i, i));
    }
}

// L⁻¹, lower triangular, row by row, into inv. The entries right of the diagonal are not touched.
fn lower_inverse(l: &[f64], n: usize, inv: &mut [f64])
    requires { (n * n ≤ length l.now) × (n * n ≤ length inv.old) }
    ensures { inv.new ≡ lower_inverse l.now n inv.old }
{
    for i in 0..n {
        put(&mut *inv, n, i, i, 1.0 / at(l, n, i, i));
        lower_row(l, n, i, &mut *inv);
    }
}

// The entry of row i and column j of L⁻ᵀ L⁻¹.
fn columns_dot(inv: &[f64], n: usize, i: usize, j: usize) -> f64
    requires { (i < n) × (j ≤ i) × (n * n ≤ length inv.now) }
    ensures { result ≡ columns_dot inv.now n i j }
{
    dots(inv, i * n + i, n, inv, i * n + j, n, n - i)
}

// The diagonal of L⁻ᵀ L⁻¹, into d.
fn diagonal(inv: &[f64], n: usize, d: &mut [f64])
    requires { (n * n ≤ length inv.now) × (n ≤ length d.old) }
    ensures { d.new ≡ diagonal_to inv.now n d.old n }
{
    for i in 0..n {
        d[i] = columns_dot(inv, n, i, i);
    }
}

// A⁻¹'s diagonal, into d, by way of L⁻¹ in the array inv.
fn diagonal_in(l: &[f64], n: usize, inv: &mut [f64], d: &mut [f64])
    requires { (n * n ≤ length l.now) × (n * n ≤ length inv.old) × (n ≤ length d.old) }
    ensures { d.new
        ≡ diagonal_to (lower_inverse l.now n inv.old) n d.old n }
{
    lower_inverse(l, n, &mut *inv);
    diagonal(&*inv, n, &mut *d);
}

// For sizes up to 8: zeros for 32 rows would take as long as the rest.
fn short_diagonal(l: &[f64], n: usize, d: &mut [f64])
    requires { (n ≤ 8) × (n * n ≤ length l.now) × (n ≤ length d.old) }
    ensures { d.new ≡ inverse_diagonal l.now n d.old }
{
    let mut inv = [0.0; 64];
    let size = n * n;
    diagonal_in(l, n, &mut inv[..size], &mut *d);
}

fn long_diagonal(l: &[f64], n: usize, d: &mut [f64])
    requires { (n ≤ 32) × (n * n ≤ length l.now) × (n ≤ length d.old) }
    ensures { d.new ≡ inverse_diagonal l.now n d.old }
{
    let mut inv = [0.0; 1024];
    let size = n * n;
    diagonal_in(l, n, &mut inv[..size], &mut *d);
}

// A⁻¹'s diagonal, as `inverse_triangular` makes it (the same sums in the same order) without the
// rest, into d.
pub fn inverse_diagonal(l: &[f64], n: usize, d: &mut [f64])
    requires { (n ≤ 32) × (n * n ≤ length l.now) × (n ≤ length d.old) }
    ensures { d.new ≡ inverse_diagonal l.now n d.old }
{
    if n <= 8 {
        short_diagonal(l, n, &mut *d);
    } else {
        long_diagonal(l, n, &mut *d);
    }
}

// Row i of L⁻ᵀ L⁻¹ to the diagonal, and its mirror.
fn mirrored_row(inv: &[f64], n: usize, i: usize, m: &mut [f64])
    requires { (i < n) × (n * n ≤ length inv.now) × (n * n ≤ length m.old) }
    ensures { m.new ≡ mirrored_row_to (columns_dot inv.now n) n i m.old (i + 1) }
{
    for j in 0..i + 1 {
        let value = columns_dot(inv, n, i, j);
        put_both(&mut *m, n, i, j, value);
    }
}

// L⁻ᵀ L⁻¹, symmetric by construction, into m.
fn mirrored(inv: &[f64], n: usize, m: &mut [f64])
    requires { (n * n ≤ length inv.now) × (n * n ≤ length m.old) }
    ensures { m.new ≡ mirrored (columns_dot inv.now n) n m.old }
{
    for i in 0..n {
        mirrored_row(inv, n, i, &mut *m);
    }
}

// A⁻¹ as L⁻ᵀ L⁻¹, a third of the work of `inverse`, symmetric by construction, into m.
pub fn inverse_triangular(l: &[f64], n: usize, m: &mut [f64])
    requires { (n ≤ 32) × (n * n ≤ length l.now) × (n * n ≤ length m.old) }
    ensures { m.new ≡ inverse_triangular l.now n m.old }
{
    let mut inv = [0.0; 1024];
    let size = n * n;
    lower_inverse(l, n, &mut inv[..size]);
    mirrored(&inv[..size], n, &mut *m);
}
