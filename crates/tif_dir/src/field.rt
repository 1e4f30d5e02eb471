// The values of a field.
use crate::order::Order;
use crate::value_type::ValueType;
use std::marker::Model;

/// A field of a directory. Contracts see the list of its values; each is read from the file on demand.
#[derive(Drop)]
pub struct Field<'a> {
    order: Order,
    kind: ValueType,
    count: u32,
    bytes: &'a [u8],
}

impl<'a> Model for Field<'a> {
    ghost use Rattle.std.specs.Prelude.{◌≡◌, ◌*◌, List, ℕ, length};
    ghost use Rattle.tif_dir.specs.Directory.{size_of, values_in};

    ghost Value = { List ℕ };

    ghost view = { λ f. values_in f.order f.kind f.count f.bytes.now };

    ghost invariant = { λ f. length f.bytes.now ≡ size_of f.kind * f.count };
}

impl<'a> Field<'a> {
    ghost use Rattle.std.specs.Prelude.{◌≡◌, ◌*◌, ◌<◌, length, slice_index};
    ghost use Rattle.tif_dir.specs.Directory.{size_of, values_in};

    /// Makes a field from the bytes of its values.
    pub(crate) fn of(order: Order, kind: ValueType, count: u32, bytes: &'a [u8]) -> Field<'a>
        requires { length bytes.now ≡ size_of kind * count }
        ensures { result ≡ values_in order kind count bytes.now }
    {
        Field {
            order,
            kind,
            count,
            bytes,
        }
    }

    /// Returns a copy of the field.
    pub fn copied(&self) -> Field<'a>
        ensures { result ≡ self.now }
    {
        Field {
            order: self.order,
            kind: self.kind,
            count: self.count,
            bytes: self.bytes,
        }
    }

    /// Returns the number of values.
    pub fn count(&self) -> u32
        ensures { result ≡ length self.now }
    {
        self.count
    }

    /// Returns value `i`.
    pub fn at(&self, i: u32) -> u32
        requires { i < length self.now }
        ensures { result ≡ slice_index self.now i }
    {
        let start = self.kind.size() * i as usize;
        self.kind.read(self.order, &self.bytes[start..])
    }
}
