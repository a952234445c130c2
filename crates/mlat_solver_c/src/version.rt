// The version of the library, for callers in C who hold it to their header's.
ghost use Rattle.std.specs.Prelude.{◌≡◌};
ghost use Rattle.mlat_solver.specs.Version.{version};

// The version as one number, in the form of the header's MLAT_VERSION.
#[unsafe(no_mangle)]
pub extern "C" fn mlat_version() -> u32
    ensures { result ≡ version 0 3 0 }
{
    mlat_solver::mlat_version()
}
