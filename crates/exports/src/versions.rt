// The version of what is exported, so that a program can tell an archive that is not of its header.
ghost use Rattle.std.specs.Prelude.{◌≡◌};
ghost use Rattle.exports.specs.Version.{version};

// A change that callers must follow raises the first, another addition the second, any other change the third.
const MAJOR: u32 = 1;

const MINOR: u32 = 0;

const PATCH: u32 = 0;

// The three in one number.
#[unsafe(no_mangle)]
pub extern "C" fn pz_version() -> u32
    ensures { result ≡ version }
{
    (MAJOR * 256 + MINOR) * 256 + PATCH
}
