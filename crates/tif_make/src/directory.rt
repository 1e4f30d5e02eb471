// The bytes of a file up to its strips.
//   0   II or MM, 42, and 8 as the offset of the directory
//   8   the number of fields, an entry of twelve bytes for each, and 0 for no next directory
//       the values that do not fit in their entries, in the order of the entries
ghost use Rattle.std.specs.Prelude.{◌≡◌, ◌≤◌, ◌+◌, ◌++◌, OnOk, length, map};
ghost use Rattle.std.specs.List.{flat_map};
ghost use Rattle.tif_make.specs.Fields.{AreFields, data_of, directory_end, entries, front, outside};

use crate::field::Field;
use pr_base::NoMemory;
use tif_dir::Order;

/// The offset of the directory, after the header.
const DIRECTORY: u32 = 8;

/// The bytes of a directory besides its entries: the number of entries, and 0 for no next directory.
const COUNT_AND_NEXT: usize = 6;

/// The bytes of an entry.
const ENTRY: usize = 12;

/// Appends everything before the strips of a file with these fields.
#[tactic(auto, unfolding(crate::specs::Fields::front))]
pub(crate) fn put_front(order: Order, fields: &[Field], file: &mut Vec<u8>) -> Result<(), NoMemory>
    requires { AreFields (map data_of fields.now) }
    ensures { OnOk result (file.new.items ≡ file.old.items ++ front order (map data_of fields.now)) }
{
    file.extend_from_slice(order.mark())?;
    file.extend_from_slice(&order.u16_bytes(42))?;
    file.extend_from_slice(&order.u32_bytes(DIRECTORY))?;
    file.extend_from_slice(&order.u16_bytes(fields.len() as u16))?;
    put_entries(order, fields, file)?;
    file.extend_from_slice(&order.u32_bytes(0))?;
    put_outside(order, fields, file)
}

/// Appends the entries of fields.
fn put_entries(order: Order, fields: &[Field], file: &mut Vec<u8>) -> Result<(), NoMemory>
    requires { AreFields (map data_of fields.now) }
    ensures { OnOk result (file.new.items
        ≡ file.old.items ++ entries order (directory_end (length fields.now)) (map data_of fields.now)) }
{
    let mut place = DIRECTORY as usize + COUNT_AND_NEXT + ENTRY * fields.len();
    for field in fields {
        field.put_entry(order, place as u32, file)?;
        place += field.outside_size();
    }
    Ok(())
}

/// Appends the values of fields that do not fit in their entries.
fn put_outside(order: Order, fields: &[Field], file: &mut Vec<u8>) -> Result<(), NoMemory>
    requires { AreFields (map data_of fields.now) }
    ensures { OnOk result (file.new.items
        ≡ file.old.items ++ flat_map (outside order) (map data_of fields.now)) }
{
    for field in fields {
        field.put_outside(order, file)?;
    }
    Ok(())
}
