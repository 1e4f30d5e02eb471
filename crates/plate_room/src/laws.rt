// Laws on how a call of `plate_main` ends. Each follows from its clause `ending`, and is the contract of a
// function with an empty body: for each end of a call, whatever it observed and whatever its status.
ghost use Rattle.std.specs.Prelude.{◌≡◌, ◌⊎◌, ◌≢◌, None, Some, IfSome};
ghost use Rattle.cmd_base.specs.Loads.{AllLoaded};
ghost use Rattle.cmd_base.specs.Seen.{FailsOnce, Files, RackFailed};
ghost use Rattle.cmd_base.specs.Status.{IsCutShort, IsDoneStatus, IsRefusal, IsStatus};
ghost use Rattle.plate_room.specs.Command.{AsksDrill, AsksVerify, command_of};
ghost use Rattle.plate_room.specs.End.{FailsByOut, IsComplete, IsToldThere, IsUnnoted};
ghost use Rattle.plate_room.specs.End.{Tells, TellsOfMemory, TellsPart, TellsVerdict};
ghost use Rattle.plate_room.specs.Ending.{AtEachEnd};
ghost use Rattle.plate_room.specs.Tasks.{IsCut, IsDone, IsShort, IsUnprinted, verdict_of};

use pr_rack::Rack;

/// The status is one of 0 to 8.
pub fn plate_main_statuses<R: Rack>()
    ensures { AtEachEnd R.Rack (λ seen note status. IsStatus status) }
{}

/// Done: the racks and the output received exactly what the command produces.
pub fn plate_main_done<R: Rack>()
    ensures { AtEachEnd R.Rack (λ seen note status. IsDoneStatus status → IsDone R.Rack seen.words seen.shelf
        seen.racks seen.racks' seen.out status) }
{}

/// Done: where the files are known, the verdict on them is a pass.
pub fn plate_main_done_verdict<R: Rack>()
    ensures { AtEachEnd R.Rack (λ seen note status. IsDoneStatus status →
        IfSome seen.shelf.held (λ files. verdict_of seen.words files ≡ None)) }
{}

/// Done: the note is unchanged.
pub fn plate_main_done_note<R: Rack>()
    ensures { AtEachEnd R.Rack (λ seen note status. IsDoneStatus status → note.given' ≡ note.given) }
{}

/// Status 1: a rack failed.
pub fn plate_main_one<R: Rack>()
    ensures { AtEachEnd R.Rack (λ seen note status. status ≡ 1 → RackFailed R.Rack seen.racks seen.racks') }
{}

/// Status 8: the command is a verification.
pub fn plate_main_eight<R: Rack>()
    ensures { AtEachEnd R.Rack (λ seen note status. status ≡ 8 → AsksVerify (command_of seen.words)) }
{}

/// Status 2: the arguments are no command.
pub fn plate_main_words<R: Rack>()
    ensures { AtEachEnd R.Rack (λ seen note status. status ≡ 2 → command_of seen.words ≡ None) }
{}

/// Arguments that are no command end with status 2, or are cut short.
pub fn plate_main_words_there<R: Rack>()
    ensures { AtEachEnd R.Rack (λ seen note status. command_of seen.words ≡ None
        → (status ≡ 2) ⊎ IsCutShort status) }
{}

/// Status 3: the note received the whole line of a refusal of the plan that the arguments met.
pub fn plate_main_plan<R: Rack>()
    ensures { AtEachEnd R.Rack (λ seen note status. status ≡ 3 → Tells seen.words seen.shelf note 3) }
{}

/// Status 4: the same of a refusal of an input file.
pub fn plate_main_file<R: Rack>()
    ensures { AtEachEnd R.Rack (λ seen note status. status ≡ 4 → Tells seen.words seen.shelf note 4) }
{}

/// Status 5: the same of a load that failed.
pub fn plate_main_shelf<R: Rack>()
    ensures { AtEachEnd R.Rack (λ seen note status. status ≡ 5 → Tells seen.words seen.shelf note 5) }
{}

/// Status 2: the same of arguments that are no command.
pub fn plate_main_words_note<R: Rack>()
    ensures { AtEachEnd R.Rack (λ seen note status. status ≡ 2 → Tells seen.words seen.shelf note 2) }
{}

/// Refused, but not by a failed load: where the files are known, the refusal is the verdict on them.
pub fn plate_main_verdict<R: Rack>()
    ensures { AtEachEnd R.Rack (λ seen note status. (files : Files) → seen.shelf.held ≡ Some files →
        IsRefusal status → status ≢ 5 → TellsVerdict seen.words files note status) }
{}

/// Where the files are known and no load failed, a verdict that refuses is reported, unless the command is
/// cut short.
pub fn plate_main_verdict_there<R: Rack>()
    ensures { AtEachEnd R.Rack (λ seen note status. IsToldThere seen.words seen.shelf status) }
{}

/// Status 7: the output failed after everything was produced but its complete text, or the note failed at
/// the line of a refusal and nothing was produced.
pub fn plate_main_printing<R: Rack>()
    ensures { AtEachEnd R.Rack (λ seen note status. status ≡ 7 →
        IsUnprinted R.Rack seen.words seen.shelf seen.racks seen.racks' seen.out
        ⊎ IsUnnoted seen.words seen.shelf seen.racks seen.racks' seen.out note) }
{}

/// Status 7 means that the output failed where the verdict is a pass and no load failed.
pub fn plate_main_printing_out<R: Rack>()
    ensures { AtEachEnd R.Rack (λ seen note status. FailsByOut seen.words seen.shelf seen.out status) }
{}

/// Where the files are known and their verdict is a refusal, the racks are unchanged.
pub fn plate_main_racks_stay<R: Rack>()
    ensures { AtEachEnd R.Rack (λ seen note status. (files : Files) → seen.shelf.held ≡ Some files →
        (verdict_of seen.words files ≡ None → ⊥) → seen.racks' ≡ seen.racks) }
{}

/// Where the files are known and their verdict is a refusal, the output received nothing.
pub fn plate_main_out_stays<R: Rack>()
    ensures { AtEachEnd R.Rack (λ seen note status. (files : Files) → seen.shelf.held ≡ Some files →
        (verdict_of seen.words files ≡ None → ⊥) → seen.out.given' ≡ seen.out.given) }
{}

/// Refused: the racks are unchanged.
pub fn plate_main_refused_racks<R: Rack>()
    ensures { AtEachEnd R.Rack (λ seen note status. IsRefusal status → seen.racks' ≡ seen.racks) }
{}

/// Refused: the output received nothing.
pub fn plate_main_refused_out<R: Rack>()
    ensures { AtEachEnd R.Rack (λ seen note status. IsRefusal status → seen.out.given' ≡ seen.out.given) }
{}

/// Cut short: nothing was produced, or a part.
pub fn plate_main_cut<R: Rack>()
    ensures { AtEachEnd R.Rack (λ seen note status. IsCutShort status → IsCut R.Rack seen.words seen.shelf
        seen.racks seen.racks' seen.out) }
{}

/// Status 6: the note received the start of a line that may be reported, then the start of the line on
/// memory.
pub fn plate_main_memory_note<R: Rack>()
    ensures { AtEachEnd R.Rack (λ seen note status. status ≡ 6 → TellsOfMemory seen.words seen.shelf note) }
{}

/// Status 7: the note received the start of a line that may be reported.
pub fn plate_main_printing_note<R: Rack>()
    ensures { AtEachEnd R.Rack (λ seen note status. status ≡ 7 → TellsPart seen.words seen.shelf note) }
{}

/// Done: no load failed.
pub fn plate_main_done_loads<R: Rack>()
    ensures { AtEachEnd R.Rack (λ seen note status. IsDoneStatus status → AllLoaded seen.shelf) }
{}

/// Refused, but not by a failed load: no load failed.
pub fn plate_main_refused_loads<R: Rack>()
    ensures { AtEachEnd R.Rack (λ seen note status. IsRefusal status → status ≢ 5 → AllLoaded seen.shelf) }
{}

/// Done: the shelf counted no file as too long, except a plate that a verification found.
pub fn plate_main_done_longs<R: Rack>()
    ensures { AtEachEnd R.Rack (λ seen note status. IsDoneStatus status → IsShort seen.words seen.shelf) }
{}

/// Done: the note's count of failures is unchanged.
pub fn plate_main_done_note_faults<R: Rack>()
    ensures { AtEachEnd R.Rack (λ seen note status. IsDoneStatus status → note.faults' ≡ note.faults) }
{}

/// Refused: the note's count of failures is unchanged.
pub fn plate_main_refused_note_faults<R: Rack>()
    ensures { AtEachEnd R.Rack (λ seen note status. IsRefusal status → note.faults' ≡ note.faults) }
{}

/// Status 6: at most one write to the note failed.
pub fn plate_main_memory_note_faults<R: Rack>()
    ensures { AtEachEnd R.Rack (λ seen note status. status ≡ 6 → FailsOnce note) }
{}

/// A drill is done, or cut short.
pub fn plate_main_drill<R: Rack>()
    ensures { AtEachEnd R.Rack (λ seen note status. AsksDrill (command_of seen.words)
        → (status ≡ 0) ⊎ IsCutShort status) }
{}

/// A verification never ends with status 1.
pub fn plate_main_verify<R: Rack>()
    ensures { AtEachEnd R.Rack (λ seen note status. AsksVerify (command_of seen.words) → status ≢ 1) }
{}

/// A verification leaves the racks unchanged.
pub fn plate_main_verify_racks<R: Rack>()
    ensures { AtEachEnd R.Rack (λ seen note status. AsksVerify (command_of seen.words)
        → seen.racks' ≡ seen.racks) }
{}

/// If the verdict is a pass and nothing fails, the command ends with its own status, or with 6 (out of
/// memory).
pub fn plate_main_complete<R: Rack>()
    ensures { AtEachEnd R.Rack (λ seen note status. IsComplete R.Rack seen.words seen.shelf
        seen.racks seen.racks' seen.out note status) }
{}
