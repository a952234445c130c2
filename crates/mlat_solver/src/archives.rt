// Fix records in the archive's form, for callers in C: document 02, item 7.
ghost use Rattle.std.specs.Prelude.{◌≡◌};
ghost use Rattle.archive.specs.Moves as moves;

// Moves a record of 176 bytes to the archive's form, in the first 152 of `out`: 14 where it is shorter, then
// `mlat_read_record`'s 16 and 18, then 20 where mirrored covariance entries differ in a bit.
pub fn mlat_to_archive(bytes: &[u8], out: &mut [u8]) -> u32
    ensures answer { result ≡ moves.to_archive_answer bytes.now out.old }
    ensures output { out.new ≡ moves.to_archive_output bytes.now out.old }
{
    refusals::answer(archive::to_archive(bytes, out))
}

// Moves a record of 152 bytes back, to the first 176 of `out`: 14 where it is shorter, then 16 where the record has
// another length, and 18 where `mlat_read_record` would turn its old form away.
pub fn mlat_from_archive(bytes: &[u8], out: &mut [u8]) -> u32
    ensures answer { result ≡ moves.from_archive_answer bytes.now out.old }
    ensures output { out.new ≡ moves.from_archive_output bytes.now out.old }
{
    refusals::answer(archive::from_archive(bytes, out))
}
