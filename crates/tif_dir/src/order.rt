// The byte order of a file's numbers.
ghost use Rattle.std.specs.Prelude.{◌≡◌, ◌≤◌, length};
ghost use Rattle.tif_dir.specs.Directory.{bytes_of, mark_of, number_of, order_of};

use byteorder::{BigEndian, ByteOrder, LittleEndian};

/// The byte order of numbers (TIFF 6.0, Section 2).
#[derive(Clone, Copy, PartialEq, Eq)]
pub enum Order {
    /// `II`: least significant byte first.
    Little,
    /// `MM`: most significant byte first.
    Big,
}

impl Order {
    /// Returns the byte order given by the first two bytes of a file.
    pub fn of(bytes: &[u8]) -> Option<Order>
        ensures { result ≡ order_of bytes.now }
    {
        if bytes.starts_with(b"II") {
            Some(Order::Little)
        } else if bytes.starts_with(b"MM") {
            Some(Order::Big)
        } else {
            None
        }
    }

    /// Returns the number in the first two bytes.
    pub fn read_u16(self, bytes: &[u8]) -> u16
        requires { 2 ≤ length bytes.now }
        ensures { result ≡ number_of self 2 bytes.now }
    {
        match self {
            Order::Little => LittleEndian::read_u16(bytes),
            Order::Big => BigEndian::read_u16(bytes),
        }
    }

    /// Returns the number in the first four bytes.
    pub fn read_u32(self, bytes: &[u8]) -> u32
        requires { 4 ≤ length bytes.now }
        ensures { result ≡ number_of self 4 bytes.now }
    {
        match self {
            Order::Little => LittleEndian::read_u32(bytes),
            Order::Big => BigEndian::read_u32(bytes),
        }
    }

    /// Returns the first two bytes of a file in this byte order.
    pub fn mark(self) -> &'static [u8]
        ensures { result.now ≡ mark_of self }
    {
        match self {
            Order::Little => b"II",
            Order::Big => b"MM",
        }
    }

    /// Returns a number as two bytes.
    pub fn u16_bytes(self, n: u16) -> [u8; 2]
        ensures { result ≡ bytes_of self 2 n }
    {
        let mut bytes = [0; 2];
        match self {
            Order::Little => LittleEndian::write_u16(&mut bytes, n),
            Order::Big => BigEndian::write_u16(&mut bytes, n),
        }
        bytes
    }

    /// Returns a number as four bytes.
    pub fn u32_bytes(self, n: u32) -> [u8; 4]
        ensures { result ≡ bytes_of self 4 n }
    {
        let mut bytes = [0; 4];
        match self {
            Order::Little => LittleEndian::write_u32(&mut bytes, n),
            Order::Big => BigEndian::write_u32(&mut bytes, n),
        }
        bytes
    }
}
