ghost use Rattle.std.specs.Prelude.{◌≡◌};
ghost use Rattle.event_text.specs.Lines.{has_feeder_lines, is_history, is_script, script_worker};

/// What a text holds.
#[derive(Clone, Copy, Debug, PartialEq, Eq)]
pub(crate) enum TextKind {
    /// A history of the controller.
    History,
    /// What the feeder makes happen.
    Stimuli,
    /// The requests of a worker.
    Script { who: u8 },
}

impl TextKind {
    /// Whether steps and the requests of operators stand in it.
    pub(crate) fn is_history(self) -> bool
        ensures { result ≡ is_history self }
    {
        matches!(self, TextKind::History)
    }

    /// Whether inputs, arrivals and ticks stand in it.
    pub(crate) fn has_feeder_lines(self) -> bool
        ensures { result ≡ has_feeder_lines self }
    {
        matches!(self, TextKind::History | TextKind::Stimuli)
    }

    /// Whether requests stand in it, each alone on its line.
    pub(crate) fn is_script(self) -> bool
        ensures { result ≡ is_script self }
    {
        matches!(self, TextKind::Script { .. })
    }

    /// The worker whose requests a script has, else 1.
    pub(crate) fn script_worker(self) -> u8
        ensures { result ≡ script_worker self }
    {
        match self {
            TextKind::Script { who } => who,
            TextKind::History | TextKind::Stimuli => 1,
        }
    }
}
