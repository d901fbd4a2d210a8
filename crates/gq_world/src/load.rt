// Loading: from a text to a world at its start.
ghost use Rattle.std.specs.Prelude.{◌≡◌, true, false, Ok, Err, IfOk, IfErr};
ghost use Rattle.gq_model.specs.machine.Scenario.{system};
ghost use Rattle.gq_model.specs.machine.World.{start};
ghost use Rattle.gq_model.specs.rules.Accept.{IsAccepted};
ghost use Rattle.gq_load.specs.Load.{loaded};
ghost use Rattle.gq_world.specs.Headline.{Upholding};
ghost use Rattle.gq_reports.specs.Command_outcomes.{GivesOf};

use crate::world::World;
use gq_laws::accepted_runs::accepted_laws;
use gq_load::accepted::Accepted;
use gq_load::loaded::loaded_laws;
use gq_load::read::read_laws;
use gq_machine::machine::Machine;
use gq_reports::RunFault;
use std::alloc::Global;

impl World {
    /// The world at the start of the scenario of a text in TOML. Refused with the first fault of `Accepted::read`, or where host memory is.
    pub fn load(alloc: Global, text: &[u8]) -> Result<World, RunFault<'static>>
        ensures loaded { IfOk result (λ w. loaded text.now ≡ Ok w.scenario) }
        ensures world { IfOk result (λ w. w.world ≡ start (system w.scenario)) }
        ensures whole { IfOk result (λ w. w.failed ≡ false) }
        ensures running { IfOk result (λ w. w.stopped ≡ false) }
        ensures signals { IfOk result (λ w. w.signals ≡ 0) }

        // The verifier accepts the scenario, and whatever the turns, a run of it upholds what is promised.
        ensures accepted { IfOk result (λ w. IsAccepted w.scenario) }
        ensures upheld { IfOk result (λ w. Upholding w.scenario) }

        // The fault is that of the definition.
        ensures refused { IfErr result (λ fault. GivesOf fault text.now) }
    {
        accepted_laws();
        loaded_laws();
        read_laws();
        let accepted = Accepted::read(alloc, text)?;
        accepted.laws();
        let (table, budgets) = accepted.into_parts();
        let machine = Machine::new(alloc, table)?;
        Ok(World::start(machine, budgets))
    }
}
