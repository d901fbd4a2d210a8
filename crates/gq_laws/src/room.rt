// Laws of the operands of leaves that wait for the reply to a call.
ghost use Rattle.std.specs.Prelude.{◌≡◌, ℕ, Ok};
ghost use Rattle.gq_model.specs.machine.Scenario.{System};
ghost use Rattle.gq_model.specs.machine.World.{World, start};
ghost use Rattle.gq_model.specs.machine.Doing.{Event};
ghost use Rattle.gq_model.specs.machine.Step.{next};
ghost use Rattle.gq_laws.specs.Session_links.{IsLinkedWorld};
ghost use Rattle.gq_laws.specs.Room.{IsRoomy};

/// Each leaf has at most 16 operands, and a client that waits for the reply to a call at most 15, so the reply has room. It does nothing.
///
/// `first`: so it is at the start.
///
/// `kept`: in a linked world each step keeps it.
pub fn roomy_worlds()
    ensures first { (system : System) → IsRoomy (start system) }
    ensures kept { (system : System) (w : World) (x : ℕ) (new : World) (event : Event) → IsLinkedWorld system w → IsRoomy w
        → next system w x ≡ Ok (new, event) → IsRoomy new }
{}
