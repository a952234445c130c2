// The steps of linalg.rs on lent arrays of any length, with the size n beside them: one proof serves
// the arrays of `Matrix` and `Cholesky` and the short ones of a fit. What lies past the n rows stays.
#![tactic(auto)]

mod rows;
mod sandwiched;
mod triangular;

ghost use Rattle.std.specs.Prelude.{◌≡◌, ℕ, ◌+◌, ◌*◌, ◌-◌, ◌<◌, ◌≤◌, length};
ghost use Rattle.dense.specs.Entries.{nth, at, put, minus_dots, dots, mul_vec};
ghost use Rattle.dense.specs.Factor.{column_to, cholesky};
ghost use Rattle.dense.specs.Held.{verdict};
ghost use Rattle.dense.specs.Solve.{forward, backward, solve};
ghost use Rattle.dense.specs.Inverse.{put_column_to, symmetrise_row_to, symmetrise_to, inverse};

pub use rows::forward_rows;
pub use sandwiched::sandwich;
pub use triangular::{inverse_diagonal, inverse_triangular};

// The entry of a row and a column.
#[tactic(auto, using(crate::proofs::Places::place))]
pub fn at(m: &[f64], n: usize, row: usize, column: usize) -> f64
    requires { (row < n) × (column < n) × (n * n ≤ length m.now) }
    ensures { result ≡ at m.now n row column }
{
    m[row * n + column]
}

// A value, into a row and a column.
pub fn put(m: &mut [f64], n: usize, row: usize, column: usize, value: f64)
    requires { (row < n) × (column < n) × (n * n ≤ length m.old) }
    ensures { m.new ≡ put m.old n row column value }
{
    m[row * n + column] = value;
}

// A value, into a row and a column, and into the mirrored place.
fn put_both(m: &mut [f64], n: usize, row: usize, column: usize, value: f64)
    requires { (row < n) × (column < n) × (n * n ≤ length m.old) }
    ensures { m.new ≡ put (put m.old n row column value) n column row value }
{
    put(&mut *m, n, row, column, value);
    put(&mut *m, n, column, row, value);
}

// v less a[p + k * s] * b[q + k * t], for k from 0 below m.
fn minus_dots(a: &[f64], p: usize, s: usize, b: &[f64], q: usize, t: usize, m: usize, v: f64) -> f64
    requires by_index { (k : ℕ) → k < m → p + k * s < length a.now }
    requires by_index_2 { (k : ℕ) → k < m → q + k * t < length b.now }
    ensures { result
        ≡ minus_dots (λ k. nth a.now (p + k * s)) (λ k. nth b.now (q + k * t)) m v }
{
    let mut value = v;
    for k in 0..m {
        value = value - a[p + k * s] * b[q + k * t];
    }
    value
}

// Column j of the factor below the diagonal.
fn column(a: &[f64], n: usize, j: usize, root: f64, l: &mut [f64])
    requires { (j < n) × (n * n ≤ length a.now) × (n * n ≤ length l.old) }
    ensures { l.new ≡ column_to a.now n j root l.old (n - (j + 1)) }
{
    for i in j + 1..n {
        let known = &*l;
        let value = minus_dots(known, i * n, 1, known, j * n, 1, j, at(a, n, i, j));
        put(&mut *l, n, i, j, value / root);
    }
}

// The Cholesky factor L of a, into l; false where a pivot is refused. The entries right of the
// diagonal are not touched.
pub fn cholesky(a: &[f64], n: usize, l: &mut [f64]) -> bool
    requires { (n * n ≤ length a.now) × (n * n ≤ length l.old) }
    ensures { verdict result l.new ≡ cholesky a.now n l.old }
{
    // read before anything is stored: so a matrix that a caller was given by value is not copied
    let a = &*a;
    for j in 0..n {
        let known = &*l;
        let diagonal = minus_dots(known, j * n, 1, known, j * n, 1, j, at(a, n, j, j));
        // false of a not-a-number too
        if 0.0 < diagonal {
            let root = binary64::sqrt(diagonal);
            put(&mut *l, n, j, j, root);
            column(a, n, j, root, &mut *l);
        } else {
            return false;
        }
    }
    true
}

// The sum of a[p + k * s] * b[q + k * t], for k from 0 below m.
fn dots(a: &[f64], p: usize, s: usize, b: &[f64], q: usize, t: usize, m: usize) -> f64
    requires by_index { (k : ℕ) → k < m → p + k * s < length a.now }
    requires by_index_2 { (k : ℕ) → k < m → q + k * t < length b.now }
    ensures { result ≡ dots (λ k. nth a.now (p + k * s)) (λ k. nth b.now (q + k * t)) m }
{
    let mut sum = 0.0;
    for k in 0..m {
        sum = sum + a[p + k * s] * b[q + k * t];
    }
    sum
}

// A v, into y.
pub fn mul_vec(a: &[f64], n: usize, v: &[f64], y: &mut [f64])
    requires { (n * n ≤ length a.now) × (n ≤ length v.now) × (n ≤ length y.old) }
    ensures { y.new ≡ mul_vec a.now n v.now y.old }
{
    for row in 0..n {
        y[row] = dots(a, row * n, 1, v, 0, 1, n);
    }
}

// x with A x = b for the A of the factor l, in place: x holds b at entry.
pub fn solve(l: &[f64], n: usize, x: &mut [f64])
    requires { (n * n ≤ length l.now) × (n ≤ length x.old) }
    ensures { x.new ≡ solve l.now n x.old }
{
    forward(l, n, &mut *x);
    backward(l, n, &mut *x);
}

// y with L y = b, in place: y holds b at entry.
pub fn forward(l: &[f64], n: usize, y: &mut [f64])
    requires { (n * n ≤ length l.now) × (n ≤ length y.old) }
    ensures { y.new ≡ forward l.now n y.old }
{
    for i in 0..n {
        let b = y[i];
        let value = minus_dots(l, i * n, 1, &*y, 0, 1, i, b);
        y[i] = value / at(l, n, i, i);
    }
}

// x with Lᵀ x = y, in place: x holds y at entry. The rows go from the last up.
pub fn backward(l: &[f64], n: usize, x: &mut [f64])
    requires { (n * n ≤ length l.now) × (n ≤ length x.old) }
    ensures { x.new ≡ backward l.now n x.old }
{
    for m in 0..n {
        let i = n - 1 - m;
        let y = x[i];
        let value = minus_dots(l, (i + 1) * n + i, n, &*x, i + 1, 1, m, y);
        x[i] = value / at(l, n, i, i);
    }
}

// x, into one column of m.
fn put_column(m: &mut [f64], n: usize, column: usize, x: &[f64])
    requires { (column < n) × (n * n ≤ length m.old) × (n ≤ length x.now) }
    ensures { m.new ≡ put_column_to m.old n column x.now n }
{
    for row in 0..n {
        put(&mut *m, n, row, column, x[row]);
    }
}

// The entries of a row right of the diagonal, and their mirrors.
fn symmetrise_row(m: &mut [f64], n: usize, row: usize)
    requires { (row < n) × (n * n ≤ length m.old) }
    ensures { m.new ≡ symmetrise_row_to n row m.old (n - (row + 1)) }
{
    for column in row + 1..n {
        let mean = 0.5 * (at(&*m, n, row, column) + at(&*m, n, column, row));
        put(&mut *m, n, row, column, mean);
        put(&mut *m, n, column, row, mean);
    }
}

// Each entry and its mirror become half their sum.
fn symmetrise(m: &mut [f64], n: usize)
    requires { n * n ≤ length m.old }
    ensures { m.new ≡ symmetrise_to n m.old n }
{
    for row in 0..n {
        symmetrise_row(&mut *m, n, row);
    }
}

// The inverse of the matrix with the factor l, into m: column by column, then made symmetric to the
// bit.
pub fn inverse(l: &[f64], n: usize, m: &mut [f64])
    requires { (n ≤ 32) × (n * n ≤ length l.now) × (n * n ≤ length m.old) }
    ensures { m.new ≡ inverse l.now n m.old }
{
    for column in 0..n {
        // the unit vector, and then its solution
        let mut x = [0.0; 32];
        x[column] = 1.0;
        solve(l, n, &mut x[..n]);
        put_column(&mut *m, n, column, &x[..n]);
    }
    symmetrise(&mut *m, n);
}
