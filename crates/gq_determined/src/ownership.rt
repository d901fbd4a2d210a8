// The law of what the owner of a leaf is.
ghost use Rattle.std.specs.Prelude.{◌≡◌, ◌<◌, ℕ, true, length};
ghost use Rattle.gq_model.specs.machine.Scenario.{Scenario, components, system};
ghost use Rattle.gq_laws.specs.Sound_scenarios.{IsSound};
ghost use Rattle.gq_races.specs.Races.{is_owner};
ghost use Rattle.gq_determined.specs.Owned.{IsOwnedBy};

/// What the owner of a leaf is, if a scenario is as the readers give it and is accepted. `races` decides it by chains of openers of bounded length.
///
/// - `owned`: let z be the owner of a leaf. Each leaf that opens sessions with it in `main` is z. Each that opens some in another section has the owner z.
/// - `owner`: a z of which that holds is the owner. So the bound leaves nothing out, as uses have no cycle.
pub fn owner_laws()
    ensures owned { (s : Scenario) → IsSound s → (z x : ℕ) → x < length (components s) → is_owner (system s) z x ≡ true → IsOwnedBy (system s) z x }
    ensures owner { (s : Scenario) → IsSound s → (z x : ℕ) → x < length (components s) → IsOwnedBy (system s) z x → is_owner (system s) z x ≡ true }
{}
