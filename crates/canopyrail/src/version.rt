// The library's version.
ghost use Rattle.std.specs.Prelude.{◌≡◌};

// 0.2.4, as major * 10000 + minor * 100 + patch.
const VERSION: u64 = 204;

// The version that is linked, so that a host can hold it against the header that it was compiled with.
pub fn canopyrail_version() -> u64
    ensures { result ≡ 204 }
{
    VERSION
}
