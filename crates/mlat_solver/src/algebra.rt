// Calculations with matrices, for callers in C: document 02, item 11. A matrix is square, row by row, of a size up to
// 32. Each call gives 21 where a size or width is over 32 or a length does not match, before any number is read, and
// then `out` stays.
ghost use Rattle.std.specs.Prelude.{◌≡◌};
ghost use Rattle.matrices.specs.Calls as calls;

// a inner a for a symmetric a, in the source's order of sums; symmetric to the bit whatever a and inner hold.
pub fn mlat_sandwich(n: usize, a: &[f64], inner: &[f64], out: &mut [f64]) -> u32
    ensures answer { result ≡ calls.sandwich_answer n a.now inner.now out.old }
    ensures output { out.new
        ≡ calls.sandwich_output n a.now inner.now out.old }
{
    refusals::answer(matrices::sandwich(n, a, inner, out))
}

// R with L R = Q, for the factor l and the n rows q of `width` numbers. A factor's entry that equals 0 is passed over.
pub fn mlat_forward_rows(n: usize, width: usize, l: &[f64], q: &[f64], out: &mut [f64]) -> u32
    ensures answer { result
        ≡ calls.forward_rows_answer n width l.now q.now out.old }
    ensures output { out.new
        ≡ calls.forward_rows_output n width l.now q.now out.old }
{
    refusals::answer(matrices::forward_rows(n, width, l, q, out))
}

// The inverse of the matrix with the factor l, as L⁻ᵀ L⁻¹: symmetric to the bit.
pub fn mlat_inverse_triangular(n: usize, l: &[f64], out: &mut [f64]) -> u32
    ensures answer { result ≡ calls.inverse_triangular_answer n l.now out.old }
    ensures output { out.new ≡ calls.inverse_triangular_output n l.now out.old }
{
    refusals::answer(matrices::inverse_triangular(n, l, out))
}

// The diagonal of that inverse, n numbers with the bits that `mlat_inverse_triangular` gives there.
pub fn mlat_inverse_diagonal(n: usize, l: &[f64], out: &mut [f64]) -> u32
    ensures answer { result ≡ calls.inverse_diagonal_answer n l.now out.old }
    ensures output { out.new ≡ calls.inverse_diagonal_output n l.now out.old }
{
    refusals::answer(matrices::inverse_diagonal(n, l, out))
}

// The Cholesky factor of a, of which the lower triangle is read alone; right of its diagonal are zeros. 6 where a pivot
// is not above 0 or is not a number, and then `out` stays.
pub fn mlat_cholesky(n: usize, a: &[f64], out: &mut [f64]) -> u32
    ensures answer { result ≡ calls.cholesky_answer n a.now out.old }
    ensures output { out.new ≡ calls.cholesky_output n a.now out.old }
{
    refusals::answer(matrices::cholesky(n, a, out))
}
