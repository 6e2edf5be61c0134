#![tactic(auto)]
// What C calls of `measures`.
ghost use Rattle.std.specs.Prelude.{◌≡◌};
ghost use Rattle.pcrl.specs.Blocks.{crc};

// CRC-16 of any bytes.
#[unsafe(no_mangle)]
pub extern "C" fn measures_crc(bytes: &[u8]) -> u16
    ensures { result ≡ crc bytes.now }
{
    measures::measures_crc(bytes)
}
