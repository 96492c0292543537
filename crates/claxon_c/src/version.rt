//! The version of the library.
ghost use Rattle.std.specs.Prelude.{◌≡◌};
ghost use Rattle.claxon_c.specs.Version.{version};

/// The version of the library, as `CLAXON_VERSION` has it.
#[unsafe(no_mangle)]
pub extern "C" fn claxon_version() -> u32
    ensures { result ≡ version 0 3 0 }
{
    300
}
