// What makes leaves run.
ghost use Rattle.std.specs.Prelude.{◌≡◌};
ghost use Rattle.gq_model.specs.rules.Use.{starts_main, is_signal};
ghost use Rattle.gq_budget.specs.Causes.{cause_of};

/// What makes leaves run.
#[derive(Clone, Copy)]
pub enum Cause {
    /// The start of the system. It runs each `main` once.
    Start,
    /// A signal of a leaf, by the numbers of both. It runs one section once.
    Signal(usize, u8),
}

impl Cause {
    /// How often it runs each `main`.
    pub(crate) fn main_runs(self) -> u64
        ensures { result ≡ starts_main (cause_of self) }
    {
        match self {
            Cause::Start => 1,
            Cause::Signal(_, _) => 0,
        }
    }

    /// Whether it is this signal of this leaf.
    pub(crate) fn is_signal(self, leaf: usize, signal: u8) -> bool
        ensures { result ≡ is_signal (cause_of self) leaf signal }
    {
        match self {
            Cause::Start => false,
            Cause::Signal(reacting, number) => reacting == leaf && number == signal,
        }
    }
}
