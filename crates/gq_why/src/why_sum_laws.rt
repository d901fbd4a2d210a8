// Laws of what is reported of a leaf's numbers.
ghost use Rattle.gq_why.specs.Adds.{ItemsAddUp, OwnAddsUp, SessionsAddUp, StepsAddUp, TimesAddUp};

/// The numbers that `why` prints below a number of a leaf add up to it. It does nothing.
///
/// - The lines of slots add up to what they hold and have lent, in a leaf and in a session.
/// - These and the cells of the heap add up to what the leaf uses of its own.
/// - The products of its sections that have a line add up to its steps, for the start and for each signal.
/// - Of a section of a service, the products of those that ask for it and have a line add up to how often it runs, for the start and for each signal. This
///   holds of each scenario that passes what no quantity decides.
pub fn why_laws()
    ensures items { ItemsAddUp }
    ensures sessions { SessionsAddUp }
    ensures own { OwnAddsUp }
    ensures steps { StepsAddUp }
    ensures times { TimesAddUp }
{}
