// The paths of an edition.

/// The paths of an edition, as the arguments of a command give them.
#[derive(Clone, Copy)]
pub struct Paths<'a> {
    /// The path of the plan.
    pub plan: &'a str,
    /// The folder of the plan's files.
    pub files: &'a str,
    /// The folder of the plates.
    pub out: &'a str,
}
