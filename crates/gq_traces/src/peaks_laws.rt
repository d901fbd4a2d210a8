// Laws of the greatest use of each account.
ghost use Rattle.std.specs.Prelude.{◌≡◌, ℕ, List, Ok};
ghost use Rattle.gq_traces.specs.Greatest.{ShowsPeaks};
ghost use Rattle.gq_traces.specs.Traces_written.{peaks_written};

/// What holds of whatever `peaks` writes, for any text of a scenario and any text of turns. It does nothing.
///
/// The text has a line for each leaf. After no number of turns of the run the leaf holds more than the line shows. After the turn that the line shows the leaf
/// holds so much, and has the quota of the line; before it the leaf holds less. So it is of bytes and of capabilities.
pub fn peaks_laws()
    ensures { (scenario turns text : List ℕ) → peaks_written scenario turns ≡ Ok text → ShowsPeaks scenario turns text }
{}
