// Exit statuses.
ghost use Rattle.std.specs.Prelude.{◌≡◌};
ghost use Rattle.cmd_base.specs.Status.{number_of};

/// How a command ended.
#[derive(Clone, Copy)]
pub enum Status {
    Done,
    /// Completed, but a site dropped out because its rack failed.
    Left,
    /// The arguments are not a command.
    Words,
    /// The plan is refused.
    Plan,
    /// An input file is refused.
    File,
    /// The shelf failed.
    Shelf,
    /// Out of memory.
    Memory,
    /// The output or the note failed.
    Printing,
    /// Completed, but a stored plate does not match.
    Differs,
}

impl Status {
    /// Returns the number that a shell sees.
    pub fn number(self) -> u8
        ensures { result ≡ number_of self }
    {
        self as u8
    }
}
