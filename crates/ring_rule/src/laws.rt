// Each kind of step keeps the rule and is an event of the schedule. Each law is the contract of a function
// with an empty body.
ghost use Rattle.ring_rule.specs.Laws.{RuleShowsSound, FirstIsStart, LookIsEvent, PickShowsTheSame};
ghost use Rattle.ring_rule.specs.Laws.{PlaceIsFill, PublishIsEvent, SeeIsEvent, TakeIsOpen, GiveIsClose};
ghost use Rattle.ring_rule.specs.Laws.{AdvanceIsEvent, LeaveIsEvent};
ghost use Rattle.ring_rule.specs.Laws.{SplitShowsTheSame, HeadNoteShowsTheSame, CursorNoteShowsTheSame};
ghost use Rattle.ring_rule.specs.Laws.{MeetHeadShowsTheSame, MeetCursorShowsTheSame};

/// Under the rule, what words, slots and views show is sound, and the slots agree with the views.
pub fn rule_shows_sound()
    ensures { RuleShowsSound }
{}

/// The table's initial state satisfies the rule and shows the core's initial schedule.
pub fn first_is_start()
    ensures { FirstIsStart }
{}

/// The writer's load of a cursor is a look at that reader.
pub fn look_is_event()
    ensures { LookIsEvent }
{}

/// The writer takes a lane, and the schedule shown is unchanged.
pub fn pick_shows_the_same()
    ensures { PickShowsTheSame }
{}

/// The writer returns the lane to its slot with its row, which is a fill.
pub fn place_is_fill()
    ensures { PlaceIsFill }
{}

/// The writer's store of the head is a publish.
pub fn publish_is_event()
    ensures { PublishIsEvent }
{}

/// A reader's load of the head is a see.
pub fn see_is_event()
    ensures { SeeIsEvent }
{}

/// A reader takes its lane, which is an open.
pub fn take_is_open()
    ensures { TakeIsOpen }
{}

/// A reader returns the lane to its slot with its row, which is a close.
pub fn give_is_close()
    ensures { GiveIsClose }
{}

/// A reader's store of its cursor is an advance.
pub fn advance_is_event()
    ensures { AdvanceIsEvent }
{}

/// A reader's store of 2^64 - 1, which is no row number, is a leave.
pub fn leave_is_event()
    ensures { LeaveIsEvent }
{}

/// Splitting a seat from the writer's leaves the schedule shown unchanged.
pub fn split_shows_the_same()
    ensures { SplitShowsTheSame }
{}

/// A note made by the writer leaves the schedule shown unchanged.
pub fn head_note_shows_the_same()
    ensures { HeadNoteShowsTheSame }
{}

/// A note made by a reader leaves the schedule shown unchanged.
pub fn cursor_note_shows_the_same()
    ensures { CursorNoteShowsTheSame }
{}

/// A note taken in by a reader leaves the schedule shown unchanged.
pub fn meet_head_shows_the_same()
    ensures { MeetHeadShowsTheSame }
{}

/// A note taken in by the writer leaves the schedule shown unchanged.
pub fn meet_cursor_shows_the_same()
    ensures { MeetCursorShowsTheSame }
{}
