// The calls that give a plate's file the plate's name once all its bytes are written.
ghost use Rattle.std.specs.Prelude.{◌≡◌, List, Option};
ghost use Rattle.std.specs.Bool.{OnFalse, OnTrue};
ghost use Rattle.pr_rack.specs.declared.delivery.FileCall.{FileCall as CallData};
ghost use Rattle.pr_rack.specs.Delivery.{IsCutShort, delivery, with_all, with_call};

/// A call on the file of a plate after its last byte.
#[derive(Clone, Copy, PartialEq, Eq)]
pub enum FileCall {
    /// Writes the offset of the directory.
    Place(u32),
    /// Syncs the file.
    Sync,
    /// Renames the file to the plate's name.
    Rename,
    /// Syncs the folder.
    SyncFolder,
}

/// The file of a plate under its temporary name, complete except for the offset of its directory.
///
/// Implementers define `calls`: the calls that succeeded, in order, where known. A call that returns false
/// leaves `calls` unchanged.
pub trait PlateFile {
    /// The calls that succeeded, in order, where known.
    ghost calls: { Self → Option (List CallData) };

    /// Writes the offset `at` of the directory.
    fn place(&mut self, at: u32) -> bool
        ensures done { OnTrue result (calls self.new ≡ with_call (FileCall.Place at) (calls self.old)) }
        ensures failed { OnFalse result (calls self.new ≡ calls self.old) };

    /// Syncs the bytes of the file to storage.
    fn sync(&mut self) -> bool
        ensures done { OnTrue result (calls self.new ≡ with_call FileCall.Sync (calls self.old)) }
        ensures failed { OnFalse result (calls self.new ≡ calls self.old) };

    /// Renames the file to the plate's name. Replaces an existing file of that name.
    fn rename(&mut self) -> bool
        ensures done { OnTrue result (calls self.new ≡ with_call FileCall.Rename (calls self.old)) }
        ensures failed { OnFalse result (calls self.new ≡ calls self.old) };

    /// Syncs the entries of the folder to storage.
    fn sync_folder(&mut self) -> bool
        ensures done { OnTrue result (calls self.new ≡ with_call FileCall.SyncFolder (calls self.old)) }
        ensures failed { OnFalse result (calls self.new ≡ calls self.old) };
}

/// Gives a written file the plate's name: writes the offset `at`, syncs the file, renames it and syncs the
/// folder. In this order, a file under the plate's name is complete at whatever point the program is
/// stopped. Returns false at the first call that fails and makes no further call.
pub fn deliver<F: PlateFile>(file: &mut F, at: u32) -> bool
    ensures done { OnTrue result (F.calls file.new ≡ with_all (delivery at) (F.calls file.old)) }
    ensures failed { OnFalse result (IsCutShort (delivery at) (F.calls file.old) (F.calls file.new)) }
{
    if !file.place(at) {
        return false;
    }
    if !file.sync() {
        return false;
    }
    if !file.rename() {
        return false;
    }
    file.sync_folder()
}
