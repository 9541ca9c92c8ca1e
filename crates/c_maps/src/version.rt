// The version of the interface.
ghost use Rattle.std.specs.Prelude.{◌≡◌};
ghost use Rattle.c_maps.specs.Version.{interface_version};

// The version that the header of this archive has as ZORPEDI_VERSION: a thousand times the major number, and the minor number.
#[unsafe(no_mangle)]
pub extern "C" fn zorpedi_version() -> u32
    ensures { result ≡ interface_version }
{
    4001
}
