// Scenarios with the least quantities in place of their own.
ghost use Rattle.std.specs.Prelude.{◌≡◌, IfErr};
ghost use Rattle.gq_output.specs.Writer_failures.{Writes};
ghost use Rattle.gq_fit.specs.declared.fit_fault.FitFault.TheVariants as faults;
ghost use Rattle.gq_fit.specs.Fitted.{IsFitted, IsFittedWhole, IsReason, IsReasonWhole, WritesFit};

use crate::fit_fault::FitFault;
use crate::given::given_text;
use crate::made::fitted_text;
use gq_output::counted::{Counted, put};
use std::alloc::Global;
use std::io::Write;

/// Writes a text that was made, whole.
fn put_made<W: Write>(out: &mut Counted<W>, text: &[u8]) -> Result<(), FitFault>
    ensures writes { Writes W.contents out.old out.new text.now result }
    ensures fault { IfErr result (λ f. f ≡ faults.Write) }
{
    match put(out, text) {
        Ok(()) => Ok(()),
        Err(_) => Err(FitFault::Write),
    }
}

/// Writes the text of a scenario with its least quantities in place of its own.
///
/// All else stays byte for byte, and so does a quantity that stays. A new one is a whole number where the old one was, else a text with the greatest of the
/// suffixes `G`, `M` and `K` that divides it. A list is written anew if a number of it changes. A text that fits already is written as it is.
///
/// What is written is accepted, and `size` prints each of its numbers as its least.
///
/// - A scenario that breaks a rule which quantities do not decide is refused, as by `size`.
/// - It has no fit if an `open` gives less than a session needs, or a least quantity is none that its key takes or its key is not written. Of such a quantity
///   the contract says only that the text does not fit as it is.
///
/// Nothing is written after a refusal or an allocation failure. After a failed write a prefix of the text is written.
pub fn fit<W: Write>(alloc: Global, scenario: &[u8], out: &mut Counted<W>) -> Result<(), FitFault>
    ensures { WritesFit W.contents (IsFitted scenario.now) IsReason scenario.now out.old out.new result }
{
    let text = fitted_text(alloc, scenario)?;
    put_made(out, text.as_slice())
}

/// Writes the text of a scenario with its least quantities in place of its own, and with programs that give just what sessions need.
///
/// What each `open` and `upgrade` gives becomes the least need or upgrade of its interface, and quantities are the least ones with these programs. All else
/// stays as `fit` leaves it.
///
/// What is written is accepted, `size` prints each of its numbers as its least, and no statement gives more or less than its interface asks. Up to each level
/// an interface asks just the bytes that sessions of that level need. A text that fits already is written as it is.
///
/// - A scenario that breaks a rule which quantities do not decide is refused, as by `size`.
/// - It has no fit if a program is given as code, which is looked for first, or if sessions hold one another without end.
/// - It has no fit if a least quantity is none that its key takes, or its key is not written. Of such a quantity the contract says only that the text does not
///   fit as it is.
///
/// Nothing is written after a refusal or an allocation failure. After a failed write a prefix of the text is written.
pub fn fit_donations<W: Write>(
    alloc: Global,
    scenario: &[u8],
    out: &mut Counted<W>,
) -> Result<(), FitFault>
    ensures { WritesFit W.contents (IsFittedWhole scenario.now) IsReasonWhole scenario.now out.old out.new result }
{
    let text = given_text(alloc, scenario)?;
    put_made(out, text.as_slice())
}
