#![tactic(auto)]
// Functions exported only to be timed.
ghost use Rattle.std.specs.Prelude.{◌≡◌};
ghost use Rattle.pcrl.specs.Blocks.{crc};

// CRC-16 of any bytes.
pub fn measures_crc(bytes: &[u8]) -> u16
    ensures { result ≡ crc bytes.now }
{
    blocks::crc::crc16(bytes)
}
