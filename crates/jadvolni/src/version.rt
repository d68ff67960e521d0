//! Which version the library is.

ghost use Rattle.std.specs.Prelude.{◌≡◌};

/// The version of the library that was linked: 10000 times its first number, 100 times its second,
/// and its third, so 200 for 0.2.0. `JADVOLNI_VERSION` in C is that of the header.
#[unsafe(no_mangle)]
pub extern "C" fn jadvolni_version() -> u32
    ensures { result ≡ 200 }
{
    200
}
