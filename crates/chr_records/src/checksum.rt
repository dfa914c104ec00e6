//! CRC-32, and the word of a text that tells it.
ghost use Rattle.std.specs.Prelude.{◌≡◌, ◌<◌};
ghost use Rattle.chr_records.specs.Checksums.{digit_of, shifted, twice, with_byte, crc_of, checksum_of};

/// The polynomial of CRC-32, the bit of its lowest power first.
const POLYNOMIAL: u32 = 0xedb8_8320;

/// Eight digits and a space.
pub(crate) const CHECKSUM_SIZE: usize = 9;

fn shift(crc: u32) -> u32
    ensures { result ≡ shifted crc }
{
    if crc % 2 == 0 {
        crc / 2
    } else {
        crc / 2 ^ POLYNOMIAL
    }
}

fn shift_by_four(crc: u32) -> u32
    ensures { result ≡ twice (twice shifted) crc }
{
    shift(shift(shift(shift(crc))))
}

fn add_byte(crc: u32, byte: u8) -> u32
    ensures { result ≡ with_byte crc byte }
{
    shift_by_four(shift_by_four(crc ^ u32::from(byte)))
}

/// The CRC-32 of a message, as zlib has it.
pub fn crc_32(message: &[u8]) -> u32
    ensures { result ≡ crc_of message.now }
{
    let mut crc = u32::MAX;
    for byte in message {
        crc = add_byte(crc, *byte);
    }
    crc ^ u32::MAX
}

/// The digit of a number's place of this value.
fn digit_at(crc: u32, place: u32) -> u8
    requires { 0 < place }
    ensures { result ≡ digit_of crc place }
{
    let digit = (crc / place % 16) as u8;
    if digit < 10 {
        b'0' + digit
    } else {
        b'a' + (digit - 10)
    }
}

pub(crate) fn checksum(message: &[u8]) -> [u8; CHECKSUM_SIZE]
    ensures { result ≡ checksum_of message.now }
{
    let crc = crc_32(message);
    [
        digit_at(crc, 0x1000_0000),
        digit_at(crc, 0x100_0000),
        digit_at(crc, 0x10_0000),
        digit_at(crc, 0x1_0000),
        digit_at(crc, 0x1000),
        digit_at(crc, 0x100),
        digit_at(crc, 0x10),
        digit_at(crc, 1),
        b' ',
    ]
}
