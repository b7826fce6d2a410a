//! Where what arrives is written.
ghost use Rattle.std.specs.Prelude.{◌≡◌};
ghost use Rattle.choices.specs.LogState.{goes_out, is_logged};

/// The settings of logging (expect(1), log_user and log_file).
#[derive(Clone, Copy, Debug, PartialEq, Eq)]
pub struct LogState {
    /// What arrives is written to standard output (`log_user 1`).
    pub user: bool,
    /// A log is open.
    pub logging: bool,
    /// The log gets what arrives whatever `log_user` is (`log_file -a`).
    pub all: bool,
}

impl LogState {
    /// Whether an arrival, with its nulls, is written to standard output, and then whether it is to
    /// the log (expect(1), log_user and log_file).
    pub fn places(&self) -> (bool, bool)
        ensures out { result.0 ≡ goes_out self.now }
        ensures log { result.1 ≡ is_logged self.now }
    {
        (self.user, self.logging && (self.user || self.all))
    }
}
