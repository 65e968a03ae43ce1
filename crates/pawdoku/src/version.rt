// Which version of the boundary this is: the layouts, names and numbers of include/pawdoku.h.
ghost use Rattle.std.specs.Prelude.{◌≡◌};
ghost use Rattle.pawdoku.specs.Library.{version};

// Raised with each change of the boundary; the name of pawdoku_abi_4 goes with it.
pub const VERSION: u32 = 4;

pub fn pawdoku_version() -> u32
    ensures { result ≡ version }
{
    VERSION
}

// The header refers to the function that has its own version in the name, and nobody calls it: what was compiled for
// another version finds no such function, so that a linker refuses it.
pub fn pawdoku_abi_4() -> u32
    ensures { result ≡ version }
{
    VERSION
}
