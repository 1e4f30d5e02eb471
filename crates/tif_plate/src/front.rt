// The front of a plate.
//   0  II
//   2  42
//   4  the offset of the directory, which isn't known before all rows are packed
ghost use Rattle.std.specs.Prelude.{◌≡◌};
ghost use Rattle.tif_plate.specs.Tail.{front_bytes};

/// Returns the first eight bytes of a plate, with 0 in bytes 4 to 7. The offset of the directory goes there
/// once all rows are written.
pub fn plate_front() -> [u8; 8]
    ensures { result ≡ front_bytes }
{
    [0x49, 0x49, 42, 0, 0, 0, 0, 0]
}
