//! The modes of a session (LSP 3.17, "Lifecycle Messages").
ghost use Rattle.std.specs.Prelude.{◌≡◌};

/// How far a session has come.
#[derive(Clone, Copy)]
pub enum Mode {
    /// Before `initialize`.
    Fresh,
    /// After `initialize`.
    Running,
    /// After `shutdown`.
    Shut,
}

impl Mode {
    ghost use Rattle.scheme_model.specs.Session.{exit_in};
    ghost use Rattle.session_replies.specs.States.{exit_code, said_mode};

    /// The status with which `exit` ends the process: 0 only after `shutdown`.
    pub fn exit_code(self) -> u8
        ensures { result ≡ exit_code (exit_in (said_mode self)) }
    {
        match self {
            Mode::Fresh | Mode::Running => 1,
            Mode::Shut => 0,
        }
    }
}
