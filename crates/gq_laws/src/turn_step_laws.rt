// Laws of every turn, whatever the scenario and the world.
ghost use Rattle.std.specs.Prelude.{ℕ};
ghost use Rattle.gq_model.specs.machine.Scenario.{System};
ghost use Rattle.gq_model.specs.machine.World.{World};
ghost use Rattle.gq_laws.specs.Turn_effects.{StandsStill, KeepsLeaves, CountsSteps, TakesSignals};

/// What a turn does to the leaf that takes it and to the others, whatever the scenario and the world.
///
/// `idle`: the turn of a leaf that can not run changes nothing.
///
/// `leaves`: no leaf comes or goes.
///
/// `counted`: the turn of a leaf that can run is one step more of this leaf and of no other.
///
/// `signals`: a leaf that serves takes its first submitted signal in it, and no other signal of any leaf is taken.
pub fn turn_laws()
    ensures idle { (system : System) (w : World) (x : ℕ) → StandsStill system w x }
    ensures leaves { (system : System) (w : World) (x : ℕ) → KeepsLeaves system w x }
    ensures counted { (system : System) (w : World) (x : ℕ) → CountsSteps system w x }
    ensures signals { (system : System) (w : World) (x : ℕ) → TakesSignals system w x }
{}
