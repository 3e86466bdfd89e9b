// The C interface to the library's version.

ghost use Rattle.std.specs.Prelude.{◌≡◌};
ghost use Rattle.spec_c.specs.Version.{version};

// major · 1,000,000 + minor · 1,000 + patch.
#[unsafe(no_mangle)]
pub extern "C" fn ls_version() -> u32
    ensures { result ≡ version }
{
    2000000
}
