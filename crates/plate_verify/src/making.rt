// Makes the plates of a group in memory from the rows of a feed.
ghost use Rattle.std.specs.Prelude.{◌≡◌, ◌*◌, ◌∷◌, [], ◌++◌, ℕ, List, OnOk, drop, length, map};
ghost use Rattle.std.specs.Prelude.{slice_index_or};
ghost use Rattle.tif_packbits.specs.Frame.{frame_of};
ghost use Rattle.plate_bytes.specs.Made.{so_far};
ghost use Rattle.plate_verify.specs.Making.{AreFed, AreFull, AreWhole, CanBeFed, CanFinish, CanTakeAll};
ghost use Rattle.plate_verify.specs.Making.{CanTakeNext, EachCanTake, EachTakes, HaveRows, HaveSides};
ghost use Rattle.tif_plate.specs.declared.sides.Sides.{Sides};
ghost use Rattle.plate_verify.specs.Making.{TakesNext, turn_rows};

use plate_bytes::PlateBytes;
use pr_base::{NoMemory, RowFeed};
use tif_packbits::framed;

/// Appends the next row of a feed to a plate. `frame` is the buffer for its frame.
fn take_next<F: RowFeed>(
    plate: &mut PlateBytes,
    feed: &mut F,
    frame: &mut [u8],
) -> Result<(), NoMemory>
    requires { CanTakeNext plate.old (F.left feed.old) (length frame.old) }
    ensures plate { OnOk result ((rows : List (List ℕ)) (row : List ℕ) (rest : List (List ℕ)) →
        TakesNext plate.old (F.left feed.old) (length frame.old) rows row rest →
        plate.new ≡ so_far plate.old.width plate.old.height plate.old.dpi (rows ++ row ∷ [])) }
    ensures feed { (rows : List (List ℕ)) (row : List ℕ) (rest : List (List ℕ)) →
        TakesNext plate.old (F.left feed.old) (length frame.old) rows row rest →
        F.left feed.new ≡ rest }
{
    feed.next(frame);
    plate.push(framed(frame))
}

/// Appends to each plate its next row, in the order in which the rows come.
fn take_each<F: RowFeed>(
    plates: &mut [PlateBytes],
    feed: &mut F,
    frame: &mut [u8],
) -> Result<(), NoMemory>
    requires { EachCanTake plates.old (F.left feed.old) (length frame.old) }
    ensures plates { OnOk result ((sides : Sides) (rows : ℕ → List (List ℕ)) (next : List (List ℕ)) →
        EachTakes plates.old (F.left feed.old) (length frame.old) sides rows next →
        HaveRows sides (λ i. rows i ++ slice_index_or next i [] ∷ []) plates.new) }
    ensures feed { OnOk result ((sides : Sides) (rows : ℕ → List (List ℕ)) (next : List (List ℕ)) →
        EachTakes plates.old (F.left feed.old) (length frame.old) sides rows next →
        F.left feed.new ≡ map frame_of (drop (length plates.old) next)) }
{
    for i in 0..plates.len() {
        take_next(&mut plates[i], feed, frame)?;
    }
    Ok(())
}

/// Removes all rows from the plates.
fn restart_all(plates: &mut [PlateBytes]) -> Result<(), NoMemory>
    ensures none { OnOk result ((sides : Sides) → HaveSides sides plates.old →
        HaveRows sides (λ i. []) plates.new) }
    ensures sides { OnOk result ((sides : Sides) → HaveSides sides plates.old → HaveSides sides plates.new) }
{
    for i in 0..plates.len() {
        plates[i].restart()?;
    }
    Ok(())
}

/// Appends all rows to the plates, one row of each plate in turn.
fn take_all<F: RowFeed>(
    plates: &mut [PlateBytes],
    height: u32,
    feed: &mut F,
    frame: &mut [u8],
) -> Result<(), NoMemory>
    requires { CanTakeAll plates.old (F.left feed.old) (length frame.old) height }
    ensures plates { OnOk result ((sides : Sides) (next : List (List ℕ)) →
        HaveRows sides (λ i. []) plates.old →
        AreFed plates.old (F.left feed.old) (length frame.old) sides next → height ≡ sides.height →
        AreFull sides (turn_rows (length plates.old) next height) plates.new) }
    ensures feed { OnOk result ((sides : Sides) (next : List (List ℕ)) → HaveRows sides (λ i. []) plates.old →
        AreFed plates.old (F.left feed.old) (length frame.old) sides next → height ≡ sides.height →
        F.left feed.new ≡ map frame_of (drop (height * length plates.old) next)) }
{
    for _y in 0..height {
        take_each(plates, feed, frame)?;
    }
    Ok(())
}

/// Completes the files of plates that have all their rows.
fn finish_all(plates: &mut [PlateBytes]) -> Result<(), NoMemory>
    requires { CanFinish plates.old }
    ensures { OnOk result ((sides : Sides) (rows : ℕ → List (List ℕ)) → AreFull sides rows plates.old →
        AreWhole sides rows plates.new) }
{
    for i in 0..plates.len() {
        plates[i].finish()?;
    }
    Ok(())
}

/// Makes plates from the next rows of a feed, which come one row of each plate in turn. Reuses the memory of
/// the plates.
pub(crate) fn make_plates<F: RowFeed>(
    plates: &mut [PlateBytes],
    height: u32,
    feed: &mut F,
    frame: &mut [u8],
) -> Result<(), NoMemory>
    requires { CanBeFed plates.old (F.left feed.old) (length frame.old) height }
    ensures plates { OnOk result ((sides : Sides) (next : List (List ℕ)) →
        AreFed plates.old (F.left feed.old) (length frame.old) sides next → height ≡ sides.height →
        AreWhole sides (turn_rows (length plates.old) next height) plates.new) }
    ensures feed { OnOk result ((sides : Sides) (next : List (List ℕ)) →
        AreFed plates.old (F.left feed.old) (length frame.old) sides next → height ≡ sides.height →
        F.left feed.new ≡ map frame_of (drop (height * length plates.old) next)) }
{
    restart_all(plates)?;
    take_all(plates, height, feed, frame)?;
    finish_all(plates)?;
    Ok(())
}
