// R with L R = Q, for several right sides at once: the columns of Q, row by row.
ghost use Rattle.std.specs.Prelude.{◌≡◌, ◌+◌, ◌*◌, ◌<◌, ◌≤◌, length};
ghost use Rattle.dense.specs.Rows.{less_row_to, less_rows_to, over_to, forward_rows};

use crate::at;

// Row i less a factor times row k.
#[tactic(auto, using(crate::proofs::Places::place_in))]
fn less_row(r: &mut [f64], width: usize, i: usize, k: usize, factor: f64)
    requires { (k < i) × ((i + 1) * width ≤ length r.old) }
    ensures { r.new ≡ less_row_to width i k factor r.old width }
{
    for j in 0..width {
        r[i * width + j] = r[i * width + j] - factor * r[k * width + j];
    }
}

// Row i less the rows above it, each times its factor.
fn less_rows(l: &[f64], n: usize, r: &mut [f64], width: usize, i: usize)
    requires { (i < n) × (n * n ≤ length l.now) × ((i + 1) * width ≤ length r.old) }
    ensures { r.new ≡ less_rows_to l.now n width i r.old i }
{
    for k in 0..i {
        let factor = at(l, n, i, k);
        if factor == 0.0 {
            continue;
        }
        less_row(&mut *r, width, i, k, factor);
    }
}

// Row i divided by a root.
fn over(r: &mut [f64], width: usize, i: usize, root: f64)
    requires { (i + 1) * width ≤ length r.old }
    ensures { r.new ≡ over_to width i root r.old width }
{
    for j in 0..width {
        r[i * width + j] = r[i * width + j] / root;
    }
}

// R with L R = Q, in place: r holds Q at entry, n rows of `width` numbers.
pub fn forward_rows(l: &[f64], n: usize, width: usize, r: &mut [f64])
    requires { (n * n ≤ length l.now) × (n * width ≤ length r.old) }
    ensures { r.new ≡ forward_rows l.now n width r.old }
{
    for i in 0..n {
        less_rows(l, n, &mut *r, width, i);
        over(&mut *r, width, i, at(l, n, i, i));
    }
}
