// What holds of every run, whatever the replies are.
ghost use Rattle.dm_device.specs.Laws.{RunsAreBounded, SessionsAreBounded};
ghost use Rattle.dm_device.specs.Rooms.{RunsKeepToRoom};

/// A session makes at most 500,000 requests.
pub fn sessions_are_bounded()
    ensures { SessionsAreBounded }
{}

/// A run makes at most 1,000,001: those of two sessions, and one farewell.
pub fn runs_are_bounded()
    ensures { RunsAreBounded }
{}

/// All that a run sends is spelled canonically, and no longer than the room that the server told last; its farewell is
/// within any room.
pub fn requests_keep_to_the_room()
    ensures { RunsKeepToRoom }
{}
