// Which version of the boundary this is: the layouts, names and numbers of include/pawdoku.h.
ghost use Rattle.std.specs.Prelude.{◌≡◌};
ghost use Rattle.pawdoku.specs.Library.{version};

#[unsafe(no_mangle)]
pub extern "C" fn pawdoku_version() -> u32
    ensures { result ≡ version }
{
    pawdoku::version::pawdoku_version()
}

// The header refers to the function that has its own version in the name, and nobody calls it: what was compiled for
// another version finds no such function, so that a linker refuses it.
#[unsafe(no_mangle)]
pub extern "C" fn pawdoku_abi_4() -> u32
    ensures { result ≡ version }
{
    pawdoku::version::pawdoku_abi_4()
}
