// The first directory of a TIFF file (TIFF 6.0, Section 2).
//
// A file begins with II or MM, the number 42 in two bytes, and the offset of the directory in four. The
// directory is the number of its entries in two bytes, then the entries: a tag in two bytes, a type in two,
// a count in four, and four bytes with the values or their offset.
ghost use Rattle.std.specs.Prelude.{◌≡◌, ◌<◌, ◌≤◌, ◌^◌, ◌==◌, length, IfOk, IsTrue};
ghost use Rattle.std.specs.List.{find};
ghost use Rattle.std.specs.Option.{option_copied};
ghost use Rattle.std.specs.Result.{result_err};
ghost use Rattle.tif_dir.specs.Directory.{dir_fault, entries_of, fault_at, header_of, held_bytes, number_of};

use crate::field::Field;
use crate::order::Order;
use crate::table::default_value;
use crate::value_type::ValueType;
use pr_base::{FaultKind, TagFault};
use std::marker::Model;

/// The first directory of a file whose header and directory are valid. Contracts see the file's bytes.
#[derive(Drop)]
pub struct Dir<'a> {
    bytes: &'a [u8],
    order: Order,
    entries: &'a [[u8; 12]],
}

impl<'a> Model for Dir<'a> {
    ghost use Rattle.std.specs.Prelude.{◌≡◌, List, ℕ, Ok};
    ghost use Rattle.tif_dir.specs.Directory.{directory_of};

    ghost Value = { List ℕ };

    ghost view = { λ d. d.bytes.now };

    ghost invariant = { λ d. directory_of d.bytes.now
        ≡ Ok (record { order = d.order; entries = d.entries.now }) };
}

/// Finds the first directory of a file. A fault has tag 0.
#[tactic(auto, unfolding(crate::specs::Directory::directory_of))]
pub fn read_dir(bytes: &[u8]) -> Result<Dir<'_>, TagFault>
    ensures file { IfOk result (λ dir. dir ≡ bytes.now) }
    ensures fault { result_err result ≡ dir_fault bytes.now }
{
    let order = header_order(bytes).ok_or(fault(0, FaultKind::Header))?;
    let entries = directory_entries(order, bytes).ok_or(fault(0, FaultKind::Directory))?;
    Ok(Dir {
        bytes,
        order,
        entries,
    })
}

impl<'a> Dir<'a> {
    ghost use Rattle.std.specs.Prelude.{◌≡◌, ◌<◌, IsTrue};
    ghost use Rattle.tif_dir.specs.Directory.{field_of, number_at};
    ghost use Rattle.tif_dir.specs.Table.{is_listed};

    /// Returns the values of the first entry with `tag`, if the directory has one.
    pub fn field(&self, tag: u16) -> Result<Option<Field<'a>>, TagFault>
        ensures { result ≡ field_of self.now tag }
    {
        let order = self.order;
        let Some(entry) = first_entry(order, self.entries, tag) else {
            return Ok(None);
        };
        let number = order.read_u16(&entry[2..]);
        let kind = ValueType::of(number).ok_or(fault(tag, FaultKind::FieldType))?;
        let count = order.read_u32(&entry[4..]);
        let total = kind.size() * count as usize;
        let placed = value_bytes(order, self.bytes, entry, total);
        let held = placed.ok_or(fault(tag, FaultKind::FieldPlace))?;
        Ok(Some(Field::of(order, kind, count, held)))
    }

    /// Returns value `i` of the field of `tag`, or its default if the file has no such field. A field that
    /// is present must have at least `least` values.
    #[tactic(auto, unfolding(crate::specs::Directory::number_at))]
    pub fn number(&self, tag: u16, i: u32, least: u32) -> Result<u32, TagFault>
        requires listed { IsTrue (is_listed tag) }
        requires within { i < least }
        ensures { result ≡ number_at self.now tag i least }
    {
        let Some(field) = self.field(tag)? else {
            return default_value(tag, i).ok_or(fault(tag, FaultKind::Missing));
        };
        if field.count() < least {
            return Err(fault(tag, FaultKind::FieldCount));
        }
        Ok(field.at(i))
    }
}

// Returns the byte order of a file with a valid header.
fn header_order(bytes: &[u8]) -> Option<Order>
    ensures { result ≡ header_of bytes.now }
{
    let order = Order::of(bytes)?;
    if bytes.len() < 8 || order.read_u16(&bytes[2..]) != 42 {
        return None;
    }
    Some(order)
}

// Returns the entries of the first directory. No sum here exceeds 2^33, so none overflows.
fn directory_entries(order: Order, bytes: &[u8]) -> Option<&[[u8; 12]]>
    requires { 8 ≤ length bytes.now }
    ensures { option_copied result ≡ entries_of order bytes.now }
{
    let place = order.read_u32(&bytes[4..]) as usize;
    if bytes.len() < place + 2 {
        return None;
    }
    let count = order.read_u16(&bytes[place..]) as usize;
    let end = place + 2 + 12 * count;
    if count == 0 || bytes.len() < end {
        return None;
    }
    let (entries, _) = bytes[place + 2..end].as_chunks::<12>();
    Some(entries)
}

// Returns the first entry with `tag`.
fn first_entry<'a>(order: Order, entries: &'a [[u8; 12]], tag: u16) -> Option<&'a [u8; 12]>
    ensures { option_copied result ≡ find (λ entry. number_of order 2 entry == tag) entries.now }
{
    entries.iter().find(|entry| order.read_u16(*entry) == tag)
}

// Returns the `total` bytes of an entry's values. Up to four are in the entry itself, left-justified.
fn value_bytes<'a>(
    order: Order,
    bytes: &'a [u8],
    entry: &'a [u8; 12],
    total: usize,
) -> Option<&'a [u8]>
    requires { total < 2 ^ 35 }
    ensures { option_copied result ≡ held_bytes order bytes.now entry.now total }
{
    if total <= 4 {
        return Some(&entry[8..8 + total]);
    }
    let place = order.read_u32(&entry[8..]) as usize;
    if bytes.len() < place + total {
        return None;
    }
    Some(&bytes[place..place + total])
}

fn fault(tag: u16, kind: FaultKind) -> TagFault
    ensures { result ≡ fault_at tag kind }
{
    TagFault { tag, kind }
}
