// The library's version as a number.
#![tactic(auto)]

ghost use Rattle.std.specs.Prelude.{◌≡◌};
ghost use Rattle.library_version.specs.LibraryVersion.{library_version};

pub fn library_version() -> u32
    ensures { result ≡ library_version }
{
    200
}
