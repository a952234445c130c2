// Fixes near a place, for callers in C: document 02, item 12.
ghost use Rattle.std.specs.Prelude.{◌≡◌};
ghost use Rattle.near.specs.Near as near;

// The places, from 0, of the fixes of a file within `radius` metres of an ECEF point, in file order, into the first
// entries of `places`, and how many they are into `count`. 14 where fewer entries are lent than the file's length
// divided by 176, rounded down; then 16 where the file is not whole records, 18 where `mlat_read_record` would turn one
// of them away, and 22 for a bad query. A refusal changes nothing lent.
pub fn mlat_within(
    file: &[u8],
    point: &[f64; 3],
    radius: f64,
    places: &mut [u64],
    count: &mut u64,
) -> u32
    ensures answer { result
        ≡ near.within_answer file.now point.now radius places.old }
    ensures list { places.new
        ≡ near.places_after file.now point.now radius places.old }
    ensures count { count.new
        ≡ near.count_after file.now point.now radius places.old count.old }
{
    match near::within(file, *point, radius, places) {
        Ok(found) => {
            *count = found;
            0
        }
        Err(why) => why.number(),
    }
}

// The place, from 0, of the fix of a file that is nearest to an ECEF point, the earliest of those at one distance, into
// `place`; the greatest u64 where the file has no fix. 16, 18 and 22 as above. A refusal changes nothing lent.
pub fn mlat_nearest(file: &[u8], point: &[f64; 3], place: &mut u64) -> u32
    ensures answer { result ≡ near.nearest_answer file.now point.now }
    ensures place { place.new
        ≡ near.place_after file.now point.now place.old }
{
    match near::nearest(file, *point) {
        Ok(found) => {
            *place = found;
            0
        }
        Err(why) => why.number(),
    }
}
