// A square matrix, row by row, of a size up to 32. `&self` is written as the struct's array, lent,
// and its size: no method moves the 8 KB.
ghost use Rattle.std.specs.Prelude.{◌≡◌, ◌<◌, ◌≤◌};
ghost use Rattle.binary64.specs.Steps.{◌⊕◌};
ghost use Rattle.dense.specs.Entries.{at, put, mul_vec};
ghost use Rattle.dense.specs.Factor.{cholesky};
ghost use Rattle.dense.specs.Held.{verdict};
ghost use Rattle.dense.specs.Sandwich.{sandwich};
ghost use Rattle.linalg.specs.Methods.{zeros};
ghost use Rattle.linalg.specs.Held.{matrix};

#[derive(Clone, Copy)]
pub struct Matrix {
    pub n: usize,
    pub data: [f64; 1024],
}

impl Matrix {
    pub fn zeros(n: usize) -> Self
        requires { n ≤ 32 }
        ensures { result ≡ matrix n zeros }
    {
        Self {
            n,
            data: [0.0; 1024],
        }
    }

    pub fn get(a: &[f64; 1024], n: usize, row: usize, column: usize) -> f64
        requires { (n ≤ 32) × (row < n) × (column < n) }
        ensures { result ≡ at a.now n row column }
    {
        dense::at(a, n, row, column)
    }

    pub fn set(a: &mut [f64; 1024], n: usize, row: usize, column: usize, value: f64)
        requires { (n ≤ 32) × (row < n) × (column < n) }
        ensures { a.new ≡ put a.old n row column value }
    {
        dense::put(&mut *a, n, row, column, value);
    }

    pub fn add(a: &mut [f64; 1024], n: usize, row: usize, column: usize, value: f64)
        requires { (n ≤ 32) × (row < n) × (column < n) }
        ensures { a.new ≡ put a.old n row column
            (at a.old n row column ⊕ value) }
    {
        let sum = dense::at(&*a, n, row, column) + value;
        dense::put(&mut *a, n, row, column, sum);
    }

    // The Cholesky factor `L` (lower triangular, `A = L Lᵀ`) into the array of a `Cholesky`; false where
    // the matrix is not positive definite to working precision.
    pub fn cholesky(a: &[f64; 1024], n: usize, l: &mut [f64; 1024]) -> bool
        requires { n ≤ 32 }
        ensures { verdict result l.new ≡ cholesky a.now n l.old }
    {
        dense::cholesky(a, n, &mut *l)
    }

    // `A inner A` for a symmetric `A`: the covariance `inner` carried through the linear map `A`,
    // symmetric by construction, into the array of a `Matrix`.
    pub fn sandwich(a: &[f64; 1024], n: usize, inner: &[f64; 1024], m: &mut [f64; 1024])
        requires { n ≤ 32 }
        ensures { m.new ≡ sandwich a.now n inner.now m.old }
    {
        dense::sandwich(a, n, inner, &mut *m);
    }

    // `A v`, into y.
    pub fn mul_vec(a: &[f64; 1024], n: usize, v: &[f64; 32], y: &mut [f64; 32])
        requires { n ≤ 32 }
        ensures { y.new ≡ mul_vec a.now n v.now y.old }
    {
        dense::mul_vec(a, n, v, &mut *y);
    }
}
