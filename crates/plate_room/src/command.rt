// The arguments of a command line.
ghost use Rattle.std.specs.Prelude.{◌≡◌, IfSome};
ghost use Rattle.pr_base.specs.Number.{IsWithin};
ghost use Rattle.plate_room.specs.Command.{asked_of as asked_meant, change_of as change_meant};
ghost use Rattle.plate_room.specs.Command.{command_of as meant, drill_of as drill_meant};
ghost use Rattle.plate_room.specs.Command.{edition_in as edition_in_meant, edition_of as edition_meant};
ghost use Rattle.plate_room.specs.Command.{keys_of as keys_meant, numbers_of as numbers_meant};
ghost use Rattle.plate_room.specs.Command.{one_of as one_meant, words_of};
ghost use Rattle.plate_room.specs.Answer.{IfRun, IsAskedFor, IsChange, IsCommand, IsDrill, IsEdition};
ghost use Rattle.cmd_run.specs.Drill.{HasTurns};
ghost use Rattle.cmd_run.specs.Edition.{HasNumbers};

use crate::number::number_within;
use cmd_base::Paths;
use cmd_replate::Change;
use cmd_run::{Drill, Edition};

/// The command that the arguments ask for.
#[derive(Clone, Copy)]
pub(crate) enum Command<'a> {
    /// `one FILE`: the black plate of a file.
    One { file: &'a str },
    /// `run PLAN FILES OUT [RING [PATIENCE]]`: the plates of all sites of an edition.
    Run(Edition<'a>),
    /// `keys PLAN FILES OUT KEYS [RING [PATIENCE]]`: as `run`, with the counts of this many ink keys of each
    /// plate.
    Keys(Edition<'a>, u32),
    /// `drill N [RING [PATIENCE]]`: the report of a generated job, and the number of dots on its plates.
    Drill(Drill),
    /// `verify PLAN FILES OUT`: whether the stored plates are those of an edition.
    Verify(Paths<'a>),
    /// `replate OLDPLAN OLDFILES PLAN FILES OUT`: the plates of an edition that changed.
    Replate(Change<'a>),
}

const MOST_KEYS: u32 = 64;

const RING: u32 = 64;

const MOST_RING: u32 = 1024;

const PATIENCE: u32 = 1024;

const MOST_PATIENCE: u32 = 65_536;

/// Returns the command that the arguments spell, if any. The names of files and folders must not be empty.
#[tactic(auto, unfolding(crate::specs::Command::command_of))]
pub(crate) fn command_of(words: &[String]) -> Option<Command<'_>>
    ensures meant { IsCommand result (meant (words_of words.now)) }
    ensures within { IfRun result }
{
    let [name, words @ ..] = words else {
        return None;
    };
    match name.as_str() {
        "one" => one_of(words),
        "run" => match edition_of(words) {
            Some(edition) => Some(Command::Run(edition)),
            None => None,
        },
        "keys" => keys_of(words),
        "drill" => match drill_of(words) {
            Some(drill) => Some(Command::Drill(drill)),
            None => None,
        },
        "verify" => match asked_of(words) {
            Some(asked) => Some(Command::Verify(asked)),
            None => None,
        },
        "replate" => match change_of(words) {
            Some(change) => Some(Command::Replate(change)),
            None => None,
        },
        _ => None,
    }
}

/// Parses the arguments after `one`.
fn one_of(words: &[String]) -> Option<Command<'_>>
    ensures meant { IsCommand result (one_meant (words_of words.now)) }
    ensures within { IfRun result }
{
    match words {
        [file] if !file.is_empty() => Some(Command::One {
            file: file.as_str(),
        }),
        _ => None,
    }
}

/// Parses the arguments after `run`.
fn edition_of(words: &[String]) -> Option<Edition<'_>>
    ensures meant { IsEdition result (edition_meant (words_of words.now)) }
    ensures within { IfSome result HasNumbers }
{
    let [plan, files, out, numbers @ ..] = words else {
        return None;
    };
    edition_in(plan.as_str(), files.as_str(), out.as_str(), numbers)
}

/// Parses the arguments after `keys`.
fn keys_of(words: &[String]) -> Option<Command<'_>>
    ensures meant { IsCommand result (keys_meant (words_of words.now)) }
    ensures within { IfRun result }
{
    let [plan, files, out, keys, numbers @ ..] = words else {
        return None;
    };
    let edition = edition_in(plan.as_str(), files.as_str(), out.as_str(), numbers)?;
    let keys = number_within(keys.as_str(), 1, MOST_KEYS)?;
    Some(Command::Keys(edition, keys))
}

/// Returns the edition with these paths and the numbers that the last arguments give.
fn edition_in<'a>(
    plan: &'a str,
    files: &'a str,
    out: &'a str,
    numbers: &[String],
) -> Option<Edition<'a>>
    ensures meant { IsEdition result
        (edition_in_meant plan.now files.now out.now (words_of numbers.now)) }
    ensures within { IfSome result HasNumbers }
{
    if plan.is_empty() || files.is_empty() || out.is_empty() {
        return None;
    }
    let (ring, patience) = numbers_of(numbers)?;
    Some(Edition {
        paths: Paths { plan, files, out },
        ring,
        patience,
    })
}

/// Parses the arguments after `verify`.
fn asked_of(words: &[String]) -> Option<Paths<'_>>
    ensures { IsAskedFor result (asked_meant (words_of words.now)) }
{
    match words {
        [plan, files, out] if !plan.is_empty() && !files.is_empty() && !out.is_empty() => {
            Some(Paths {
                plan: plan.as_str(),
                files: files.as_str(),
                out: out.as_str(),
            })
        }
        _ => None,
    }
}

/// Parses the arguments after `replate`.
fn change_of(words: &[String]) -> Option<Change<'_>>
    ensures { IsChange result (change_meant (words_of words.now)) }
{
    let [old_plan, old_files, words @ ..] = words else {
        return None;
    };
    if old_plan.is_empty() || old_files.is_empty() {
        return None;
    }
    let paths = asked_of(words)?;
    Some(Change {
        old_plan: old_plan.as_str(),
        old_files: old_files.as_str(),
        paths,
    })
}

/// Parses the arguments after `drill`.
fn drill_of(words: &[String]) -> Option<Drill>
    ensures meant { IsDrill result (drill_meant (words_of words.now)) }
    ensures within { IfSome result HasTurns }
{
    let [number, numbers @ ..] = words else {
        return None;
    };
    let number = number_within(number.as_str(), 0, u32::MAX)?;
    let (ring, patience) = numbers_of(numbers)?;
    Some(Drill {
        number,
        ring,
        patience,
    })
}

/// Parses the last arguments of a run or a drill: the number of places of the ring, and the patience.
fn numbers_of(words: &[String]) -> Option<(u32, u32)>
    ensures meant { result ≡ numbers_meant (words_of words.now) }
    ensures ring { IfSome result (λ numbers. IsWithin 1 1024 numbers.0) }
    ensures patience { IfSome result (λ numbers. IsWithin 1 65536 numbers.1) }
{
    match words {
        [] => Some((RING, PATIENCE)),
        [ring] => {
            let ring = number_within(ring.as_str(), 1, MOST_RING)?;
            Some((ring, PATIENCE))
        }
        [ring, patience] => {
            let ring = number_within(ring.as_str(), 1, MOST_RING)?;
            let patience = number_within(patience.as_str(), 1, MOST_PATIENCE)?;
            Some((ring, patience))
        }
        _ => None,
    }
}
