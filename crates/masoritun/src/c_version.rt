// The version of the library.
ghost use Rattle.std.specs.Prelude.{◌≡◌};
ghost use Rattle.masoritun.specs.Masoritun.{version};

// The header's MST_VERSION, with which a program can compare it.
#[unsafe(no_mangle)]
pub extern "C" fn mst_version() -> u32
    ensures { result ≡ version }
{
    200
}
