// A field of a directory.
ghost use Rattle.std.specs.Prelude.{◌≡◌, ◌≤◌, ◌+◌, ◌*◌, ◌++◌, ◌<◌, OnOk, length, map, replicate, nat_le};
ghost use Rattle.std.specs.Prelude.{if◌then◌else◌};
ghost use Rattle.std.specs.List.{flat_map};
ghost use Rattle.tif_dir.specs.Directory.{bytes_of};
ghost use Rattle.tif_make.specs.Fields.{data_of, entry, outside, outside_size, total, value_bytes};
ghost use Rattle.tif_make.specs.Fields.{value_or_place};

use pr_base::NoMemory;
use tif_dir::Order;

/// The field types (TIFF 6.0, Section 2).
const SHORT: u16 = 3;

const LONG: u16 = 4;

/// The maximum bytes of values in an entry.
const HELD: usize = 4;

/// The values of a field, 16 or 32 bits each.
#[derive(Clone, Copy)]
pub(crate) enum Values<'a> {
    Short(u16),
    Shorts(&'a [u16]),
    Long(u32),
    Longs(&'a [u32]),
}

/// A tag and its values.
#[derive(Clone, Copy)]
pub(crate) struct Field<'a> {
    pub(crate) tag: u16,
    pub(crate) values: Values<'a>,
}

impl Field<'_> {
    /// Returns the number of the values' type.
    fn kind(&self) -> u16
        ensures { result ≡ (data_of self.now).kind }
    {
        match self.values {
            Values::Short(_) | Values::Shorts(_) => SHORT,
            Values::Long(_) | Values::Longs(_) => LONG,
        }
    }

    /// Returns the number of values.
    fn count(&self) -> usize
        ensures { result ≡ length (data_of self.now).values }
    {
        match self.values {
            Values::Short(_) | Values::Long(_) => 1,
            Values::Shorts(numbers) => numbers.len(),
            Values::Longs(numbers) => numbers.len(),
        }
    }

    /// Returns the size of all values in bytes.
    fn total(&self) -> usize
        requires { length (data_of self.now).values ≤ 4294967295 }
        ensures { result ≡ total (data_of self.now) }
    {
        match self.values {
            Values::Short(_) => 2,
            Values::Long(_) => 4,
            Values::Shorts(numbers) => 2 * numbers.len(),
            Values::Longs(numbers) => 4 * numbers.len(),
        }
    }

    /// Appends the values.
    fn put_values(&self, order: Order, file: &mut Vec<u8>) -> Result<(), NoMemory>
        ensures { OnOk result (file.new.items ≡ file.old.items ++ value_bytes order (data_of self.now)) }
    {
        match self.values {
            Values::Short(n) => file.extend_from_slice(&order.u16_bytes(n))?,
            Values::Long(n) => file.extend_from_slice(&order.u32_bytes(n))?,
            Values::Shorts(numbers) => put_shorts(numbers, order, file)?,
            Values::Longs(numbers) => put_longs(numbers, order, file)?,
        }
        Ok(())
    }

    /// Returns the size in bytes of values that do not fit in the entry, 0 if they fit.
    pub(crate) fn outside_size(&self) -> usize
        requires { length (data_of self.now).values ≤ 4294967295 }
        ensures { result ≡ outside_size (data_of self.now) }
    {
        let total = self.total();
        if total <= HELD { 0 } else { total }
    }

    /// Appends the values if they do not fit in the entry.
    pub(crate) fn put_outside(&self, order: Order, file: &mut Vec<u8>) -> Result<(), NoMemory>
        requires { length (data_of self.now).values ≤ 4294967295 }
        ensures { OnOk result (file.new.items ≡ file.old.items ++ outside order (data_of self.now)) }
    {
        if self.total() <= HELD {
            return Ok(());
        }
        self.put_values(order, file)
    }

    /// Appends the entry of the field; `place` is the offset of its values if they do not fit in it.
    #[tactic(auto, unfolding(crate::specs::Fields::entry))]
    pub(crate) fn put_entry(
        &self,
        order: Order,
        place: u32,
        file: &mut Vec<u8>,
    ) -> Result<(), NoMemory>
        requires { length (data_of self.now).values ≤ 4294967295 }
        ensures { OnOk result (file.new.items ≡ file.old.items ++ entry order place (data_of self.now)) }
    {
        file.extend_from_slice(&order.u16_bytes(self.tag))?;
        file.extend_from_slice(&order.u16_bytes(self.kind()))?;
        file.extend_from_slice(&order.u32_bytes(self.count() as u32))?;
        self.put_value_or_place(order, place, file)
    }

    /// Appends the last four bytes of the entry: the values, padded with zeros, or their offset.
    fn put_value_or_place(
        &self,
        order: Order,
        place: u32,
        file: &mut Vec<u8>,
    ) -> Result<(), NoMemory>
        requires { length (data_of self.now).values ≤ 4294967295 }
        ensures { OnOk result (file.new.items
            ≡ file.old.items ++ value_or_place order place (data_of self.now)) }
    {
        let total = self.total();
        if total > HELD {
            file.extend_from_slice(&order.u32_bytes(place))?;
            return Ok(());
        }
        self.put_values(order, file)?;
        file.extend_from_slice(&[0; HELD][total..])?;
        Ok(())
    }
}

/// Appends 16-bit numbers.
fn put_shorts(numbers: &[u16], order: Order, file: &mut Vec<u8>) -> Result<(), NoMemory>
    ensures { OnOk result (file.new.items ≡ file.old.items ++ flat_map (bytes_of order 2) numbers.now) }
{
    for n in numbers {
        file.extend_from_slice(&order.u16_bytes(*n))?;
    }
    Ok(())
}

/// Appends 32-bit numbers.
fn put_longs(numbers: &[u32], order: Order, file: &mut Vec<u8>) -> Result<(), NoMemory>
    ensures { OnOk result (file.new.items ≡ file.old.items ++ flat_map (bytes_of order 4) numbers.now) }
{
    for n in numbers {
        file.extend_from_slice(&order.u32_bytes(*n))?;
    }
    Ok(())
}
