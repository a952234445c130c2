// A B A for a symmetric A: the covariance B carried through the linear map A.
ghost use Rattle.std.specs.Prelude.{◌≡◌, ◌+◌, ◌*◌, ◌<◌, ◌≤◌, length};
ghost use Rattle.dense.specs.Mirrored.{mirrored_row_to, mirrored};
ghost use Rattle.dense.specs.Sandwich.{product, product_row_to, product_to, sandwich};

use crate::{dots, put, put_both};

// Row i of A times column j of B.
fn product(a: &[f64], b: &[f64], n: usize, i: usize, j: usize) -> f64
    requires { (i < n) × (j < n) × (n * n ≤ length a.now) × (n * n ≤ length b.now) }
    ensures { result ≡ product a.now b.now n i j }
{
    dots(a, i * n, 1, b, j, n, n)
}

// Row i of A B, into m.
fn product_row(a: &[f64], b: &[f64], n: usize, i: usize, m: &mut [f64])
    requires { (i < n) × (n * n ≤ length a.now) × (n * n ≤ length b.now) × (n * n ≤ length m.old) }
    ensures { m.new ≡ product_row_to a.now b.now n i m.old n }
{
    for j in 0..n {
        let value = product(a, b, n, i, j);
        put(&mut *m, n, i, j, value);
    }
}

// A B, into m.
fn product_all(a: &[f64], b: &[f64], n: usize, m: &mut [f64])
    requires { (n * n ≤ length a.now) × (n * n ≤ length b.now) × (n * n ≤ length m.old) }
    ensures { m.new ≡ product_to a.now b.now n m.old n }
{
    for i in 0..n {
        product_row(a, b, n, i, &mut *m);
    }
}

// Row i of A B to the diagonal, and its mirror.
fn mirrored_row(a: &[f64], b: &[f64], n: usize, i: usize, m: &mut [f64])
    requires { (i < n) × (n * n ≤ length a.now) × (n * n ≤ length b.now) × (n * n ≤ length m.old) }
    ensures { m.new
        ≡ mirrored_row_to (product a.now b.now n) n i m.old (i + 1) }
{
    for j in 0..i + 1 {
        let value = product(a, b, n, i, j);
        put_both(&mut *m, n, i, j, value);
    }
}

// A B, of which only the rows to the diagonal are computed, and mirrored, into m.
fn mirrored(a: &[f64], b: &[f64], n: usize, m: &mut [f64])
    requires { (n * n ≤ length a.now) × (n * n ≤ length b.now) × (n * n ≤ length m.old) }
    ensures { m.new ≡ mirrored (product a.now b.now n) n m.old }
{
    for i in 0..n {
        mirrored_row(a, b, n, i, &mut *m);
    }
}

// a inner a for a symmetric a, symmetric by construction, into m.
pub fn sandwich(a: &[f64], n: usize, inner: &[f64], m: &mut [f64])
    requires { (n ≤ 32) × (n * n ≤ length a.now) × (n * n ≤ length inner.now) × (n * n ≤ length m.old) }
    ensures { m.new ≡ sandwich a.now n inner.now m.old }
{
    let mut half = [0.0; 1024];
    let size = n * n;
    product_all(a, inner, n, &mut half[..size]);
    mirrored(&half[..size], a, n, &mut *m);
}
