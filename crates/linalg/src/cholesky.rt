// A Cholesky factorisation `A = L Lᵀ`, its array lent to each method as a matrix's is. A solution
// takes the place of the right side in its first n entries, and what lies past them stays.
ghost use Rattle.std.specs.Prelude.{◌≡◌, ◌≤◌};
ghost use Rattle.dense.specs.Solve.{forward, backward, solve};
ghost use Rattle.dense.specs.Inverse.{inverse};
ghost use Rattle.dense.specs.Rows.{forward_rows};
ghost use Rattle.dense.specs.Triangular.{inverse_triangular, inverse_diagonal};

#[derive(Clone, Copy)]
pub struct Cholesky {
    pub n: usize,
    pub l: [f64; 1024],
}

impl Cholesky {
    // `x` with `A x = b`: x holds b at entry.
    pub fn solve(l: &[f64; 1024], n: usize, x: &mut [f64; 32])
        requires { n ≤ 32 }
        ensures { x.new ≡ solve l.now n x.old }
    {
        dense::solve(l, n, &mut *x);
    }

    // `y` with `L y = b`: y holds b at entry.
    pub fn forward(l: &[f64; 1024], n: usize, y: &mut [f64; 32])
        requires { n ≤ 32 }
        ensures { y.new ≡ forward l.now n y.old }
    {
        dense::forward(l, n, &mut *y);
    }

    // `R` with `L R = Q`, row by row with `width` columns: r holds Q at entry.
    pub fn forward_rows(l: &[f64; 1024], n: usize, width: usize, r: &mut [f64; 1024])
        requires { (n ≤ 32) × (width ≤ 32) }
        ensures { r.new ≡ forward_rows l.now n width r.old }
    {
        dense::forward_rows(l, n, width, &mut *r);
    }

    // `x` with `Lᵀ x = y`: x holds y at entry.
    pub fn backward(l: &[f64; 1024], n: usize, x: &mut [f64; 32])
        requires { n ≤ 32 }
        ensures { x.new ≡ backward l.now n x.old }
    {
        dense::backward(l, n, &mut *x);
    }

    // `A⁻¹`'s diagonal, as `inverse_triangular` makes it, into d.
    pub fn inverse_diagonal(l: &[f64; 1024], n: usize, d: &mut [f64; 32])
        requires { n ≤ 32 }
        ensures { d.new ≡ inverse_diagonal l.now n d.old }
    {
        dense::inverse_diagonal(l, n, &mut *d);
    }

    // `A⁻¹` as `L⁻ᵀ L⁻¹`, symmetric by construction, into the array of a `Matrix`.
    pub fn inverse_triangular(l: &[f64; 1024], n: usize, m: &mut [f64; 1024])
        requires { n ≤ 32 }
        ensures { m.new ≡ inverse_triangular l.now n m.old }
    {
        dense::inverse_triangular(l, n, &mut *m);
    }

    // `A⁻¹`, column by column, into the array of a `Matrix`.
    pub fn inverse(l: &[f64; 1024], n: usize, m: &mut [f64; 1024])
        requires { n ≤ 32 }
        ensures { m.new ≡ inverse l.now n m.old }
    {
        dense::inverse(l, n, &mut *m);
    }
}
