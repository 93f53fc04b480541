//! The version of the library.

ghost use Rattle.std.specs.Prelude.{◌≡◌, pos};
ghost use Rattle.unifdef_c.specs.Versions.{version_number};
ghost use Rattle.unifdef_c.specs.declared.version.TheConstants.{MAJOR, MINOR};

/// The number before the version's point.
pub(crate) const MAJOR: u16 = 1;

/// The number after the version's point.
pub(crate) const MINOR: u16 = 0;

/// Returns the version of the library as a number: 10000 is 1.0, and 10200 is 1.2.
#[unsafe(no_mangle)]
pub extern "C" fn unifdef_version() -> i32
    ensures { result ≡ pos (version_number MAJOR MINOR) }
{
    i32::from(MAJOR) * 10_000 + i32::from(MINOR) * 100
}
