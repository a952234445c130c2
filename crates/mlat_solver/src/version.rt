// The version of the library, for callers in C who hold it to their header's.
ghost use Rattle.std.specs.Prelude.{◌≡◌};
ghost use Rattle.mlat_solver.specs.Version.{version};

// The three numbers of version.txt.
const MAJOR: u32 = 0;

const MINOR: u32 = 3;

const PATCH: u32 = 0;

// The version as one number, in the form of the header's MLAT_VERSION.
pub fn mlat_version() -> u32
    ensures { result ≡ version 0 3 0 }
{
    MAJOR * 1_000_000 + MINOR * 1_000 + PATCH
}
