// Problems one after the other as bytes, for callers in C who solve many: docs/GUIDE.md, 'Many problems at once'.
ghost use Rattle.std.specs.Prelude.{◌≡◌};
ghost use Rattle.stream.specs.Frames as frames;
ghost use Rattle.mlat_solver.specs.Streams as held;

// Solves the first problem of a stream, and writes its record of 176 bytes at the start of `out` and the number of
// bytes that the problem takes into `used`. Gives document 01's answer number: 14 where `out` is under 176 bytes,
// tested first; then 16 where the stream ends within the problem. Then `out` and `used` stay.
#[unsafe(no_mangle)]
pub extern "C" fn mlat_solve_next(stream: &[u8], out: &mut [u8], used: &mut u64) -> u32
    ensures answer { result ≡ frames.next_answer stream.now out.old }
    ensures output { out.new ≡ frames.next_output stream.now out.old }
    ensures used { used.new
        ≡ frames.used_after stream.now out.old used.old }
{
    mlat_solver::mlat_solve_next(stream, out, used)
}

// Of the lengths of a problem's inputs, or 0xFFFFFFFF for an absent one, how much of the start of each is enough: a
// problem of these starts gets the same reply.
#[unsafe(no_mangle)]
pub extern "C" fn mlat_cut_lengths(lengths: &[u32; 4], cut: &mut [u32; 4])
    ensures { cut.new ≡ held.four_of (frames.kept (held.head_by lengths.now)) }
{
    mlat_solver::mlat_cut_lengths(lengths, cut);
}
