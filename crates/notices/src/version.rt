//! The version.
ghost use Rattle.std.specs.Prelude.{◌≡◌};

macro_rules! version {
    ($($more:literal)?) => {
        concat!("0.1.0", $($more)?)
    };
}

/// The version of all parts: the program, the library for C and the tools.
pub const VERSION: &str = version!();

/// The same, and the versions of the texts that are read and printed.
pub const VERSION_WITH_TEXTS: &str = version!(
    " (texts: module-image 1, module-image 2, certificate 1, certificate 2, certificate 3, certificate 4)"
);

/// The version, for C.
pub fn version_text() -> &'static str
    ensures { result.now ≡ VERSION.now }
{
    VERSION
}
