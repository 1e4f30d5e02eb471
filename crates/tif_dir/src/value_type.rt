// The types of a field's values.
ghost use Rattle.std.specs.Prelude.{◌≡◌, ◌≤◌, length};
ghost use Rattle.tif_dir.specs.Directory.{number_of, size_of, type_of};

use crate::order::Order;

/// A type of unsigned numbers (TIFF 6.0, Section 2, "Types").
#[derive(Clone, Copy, PartialEq, Eq)]
pub enum ValueType {
    Byte,
    Short,
    Long,
}

impl ValueType {
    /// Returns the type with this number, if it is supported.
    pub fn of(number: u16) -> Option<ValueType>
        ensures { result ≡ type_of number }
    {
        match number {
            1 => Some(ValueType::Byte),
            3 => Some(ValueType::Short),
            4 => Some(ValueType::Long),
            _ => None,
        }
    }

    /// Returns the size of a value in bytes.
    pub fn size(self) -> usize
        ensures { result ≡ size_of self }
    {
        match self {
            ValueType::Byte => 1,
            ValueType::Short => 2,
            ValueType::Long => 4,
        }
    }

    /// Returns the value in the first bytes.
    pub fn read(self, order: Order, bytes: &[u8]) -> u32
        requires { size_of self ≤ length bytes.now }
        ensures { result ≡ number_of order (size_of self) bytes.now }
    {
        match self {
            ValueType::Byte => u32::from(bytes[0]),
            ValueType::Short => u32::from(order.read_u16(bytes)),
            ValueType::Long => order.read_u32(bytes),
        }
    }
}
