// Document 02, item 11: `sandwich`, `forward_rows`, `inverse_triangular` and `inverse_diagonal` of
// linalg.rs on lent slices of any length, and `cholesky`, which gives their factor. Each is refused as
// a wrong size where a size or width is over 32 or a length does not match: then no number is read, and
// nothing lent changes.
#![tactic(auto)]

ghost use Rattle.std.specs.Prelude.{◌≡◌, ◌*◌, ◌≤◌, length};
ghost use Rattle.refusals.specs.Refusals.{answer_of};
ghost use Rattle.matrices.specs.Matching.{holds, squares, square_and_column, three_squares, square_and_rows};
ghost use Rattle.matrices.specs.Calls as calls;

use refusals::Refusal;

// The greatest size and width.
const MOST: usize = 32;

// Whether so many entries are so many rows and columns, at most 32 of each. Nothing is multiplied
// before both are known to be small.
fn holds(rows: usize, columns: usize, entries: usize) -> bool
    ensures { result ≡ holds rows columns entries }
{
    rows <= MOST && columns <= MOST && entries == rows * columns
}

fn squares(n: usize, l: usize, out: usize) -> bool
    ensures { result ≡ squares n l out }
{
    holds(n, n, l) && holds(n, n, out)
}

fn square_and_column(n: usize, l: usize, out: usize) -> bool
    ensures { result ≡ square_and_column n l out }
{
    holds(n, n, l) && holds(n, 1, out)
}

fn three_squares(n: usize, a: usize, inner: usize, out: usize) -> bool
    ensures { result ≡ three_squares n a inner out }
{
    holds(n, n, a) && squares(n, inner, out)
}

fn square_and_rows(n: usize, width: usize, l: usize, q: usize, out: usize) -> bool
    ensures { result ≡ square_and_rows n width l q out }
{
    holds(n, n, l) && holds(n, width, q) && holds(n, width, out)
}

// a inner a for a symmetric a, into out.
pub fn sandwich(n: usize, a: &[f64], inner: &[f64], out: &mut [f64]) -> Result<(), Refusal>
    ensures answer { answer_of result
        ≡ calls.sandwich_answer n a.now inner.now out.old }
    ensures output { out.new
        ≡ calls.sandwich_output n a.now inner.now out.old }
{
    if three_squares(n, a.len(), inner.len(), out.len()) {
        dense::sandwich(a, n, inner, &mut *out);
        return Ok(());
    }
    Err(Refusal::WrongSize)
}

// q, into out, entry by entry: the library's copy would ask a caller's program for `memmove`, which nothing else does.
fn copy(q: &[f64], out: &mut [f64])
    requires { length out.old ≡ length q.now }
    ensures { out.new ≡ q.now }
{
    for k in 0..q.len() {
        out[k] = q[k];
    }
}

// R with L R = Q for the factor l and the n rows q of `width` numbers, into out.
pub fn forward_rows(
    n: usize,
    width: usize,
    l: &[f64],
    q: &[f64],
    out: &mut [f64],
) -> Result<(), Refusal>
    ensures answer { answer_of result
        ≡ calls.forward_rows_answer n width l.now q.now out.old }
    ensures output { out.new
        ≡ calls.forward_rows_output n width l.now q.now out.old }
{
    if square_and_rows(n, width, l.len(), q.len(), out.len()) {
        copy(q, &mut *out);
        dense::forward_rows(l, n, width, &mut *out);
        return Ok(());
    }
    Err(Refusal::WrongSize)
}

// A⁻¹ for the A of the factor l, into out.
pub fn inverse_triangular(n: usize, l: &[f64], out: &mut [f64]) -> Result<(), Refusal>
    ensures answer { answer_of result ≡ calls.inverse_triangular_answer n l.now out.old }
    ensures output { out.new
        ≡ calls.inverse_triangular_output n l.now out.old }
{
    if squares(n, l.len(), out.len()) {
        dense::inverse_triangular(l, n, &mut *out);
        return Ok(());
    }
    Err(Refusal::WrongSize)
}

// The diagonal of A⁻¹ for the A of the factor l, into out.
pub fn inverse_diagonal(n: usize, l: &[f64], out: &mut [f64]) -> Result<(), Refusal>
    ensures answer { answer_of result ≡ calls.inverse_diagonal_answer n l.now out.old }
    ensures output { out.new
        ≡ calls.inverse_diagonal_output n l.now out.old }
{
    if square_and_column(n, l.len(), out.len()) {
        dense::inverse_diagonal(l, n, &mut *out);
        return Ok(());
    }
    Err(Refusal::WrongSize)
}

// The factor of a, into out, once it is found; singular where a pivot is refused, and then out stays.
fn factor(n: usize, a: &[f64], out: &mut [f64]) -> Result<(), Refusal>
    requires { (n ≤ 32) × (length a.now ≡ n * n) × (length out.old ≡ n * n) }
    ensures answer { answer_of result ≡ calls.factor_answer (calls.cholesky n a.now) }
    ensures output { out.new
        ≡ calls.factor_output (calls.cholesky n a.now) out.old }
{
    let mut l = [0.0; 1024];
    let size = n * n;
    let found = dense::cholesky(a, n, &mut l[..size]);
    if found {
        out.copy_from_slice(&l[..size]);
        return Ok(());
    }
    Err(Refusal::Singular)
}

// The Cholesky factor L of a (lower triangular, A = L Lᵀ), into out; singular where the matrix is
// not positive definite to working precision. Of a the lower triangle is read alone, and right of the
// diagonal the factor has zeros.
pub fn cholesky(n: usize, a: &[f64], out: &mut [f64]) -> Result<(), Refusal>
    ensures answer { answer_of result ≡ calls.cholesky_answer n a.now out.old }
    ensures output { out.new ≡ calls.cholesky_output n a.now out.old }
{
    if squares(n, a.len(), out.len()) {
        return factor(n, a, &mut *out);
    }
    Err(Refusal::WrongSize)
}
