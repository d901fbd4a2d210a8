// The levels of the sections of leaves.
ghost use Rattle.gq_sizes.specs.Needing.{AreLow};

use gq_verify::Verified;

/// That no leaf has a section of a level above 3. It does nothing.
pub(crate) fn levels_are_low(leaves: &[Verified<'_>])
    ensures { AreLow leaves.now }
{
    for verified in leaves {
        let program = verified.subject().program();
        program.laws();
    }
}
