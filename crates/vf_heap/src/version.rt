//! The version of the library.
ghost use Rattle.std.specs.Prelude.{◌≡◌};
ghost use Rattle.vf_heap.specs.declared.version.TheConstants.{VERSION};

/// The version as a number: 10,000 for its first part, 100 for its second, 1 for its third.
pub const VERSION: u32 = 10_000;

/// The version of the library that the program is linked with, where the header has its own.
#[unsafe(no_mangle)]
pub extern "C" fn vf_version() -> u32
    ensures { result ≡ VERSION }
{
    VERSION
}
