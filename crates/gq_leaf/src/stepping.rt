// Where a step of a leaf leads, by its frame.
ghost use Rattle.std.specs.Prelude.{◌≡◌, ℕ, List, Ok, Err, slice_get, Some};
ghost use Rattle.gq_model.specs.machine.Program.{Statements, Do};
ghost use Rattle.gq_model.specs.declared.program.Instruction.{Instruction};
ghost use Rattle.gq_model.specs.machine.Scenario.{System, Component};
ghost use Rattle.gq_model.specs.machine.World as world;
ghost use Rattle.gq_model.specs.machine.Step.{instruct, next};
ghost use Rattle.gq_bytecode.specs.Nexts.{Active};
ghost use Rattle.gq_slots.specs.Slots.{Frame, Slots, world_seen};
ghost use Rattle.gq_leaf.specs.Leaf_frames.{IsElsewhere};
ghost use Rattle.gq_model.specs.declared.fault.Wrong.{Wrong};
ghost use Rattle.gq_bytecode.specs.Cores.{Core};
ghost use Rattle.gq_statements.specs.declared.actor.Actor.{Actor};
ghost use Rattle.gq_leaf.specs.Leaf_states.{LeafState, Steps, stepped};
ghost use Rattle.gq_leaf.specs.Leaves_steps.{Does, step_at};

/// A frame in which one leaf stands otherwise has the world with that leaf anew, which keeps its slots and its peaks. It does nothing.
pub fn changed_frame()
    ensures { (f g : Frame) (s : Slots) (x : ℕ) (leaf : world.Leaf) → slice_get (world_seen f s).leaves x ≡ Some leaf → IsElsewhere f g x
        → world_seen g s ≡ world.with_leaf (world_seen f s) x (record (g.leaf x) { slots = leaf.slots; peaks = leaf.peaks }) }
{}

/// A leaf that takes steps and has an instruction before it does it: this is the step of the abstract machine. It does nothing.
pub fn instructed()
    ensures { (system : System) (w : world.World) (x : ℕ) (c : Component) (leaf : world.Leaf) (i : Instruction) (rest : Statements)
        → slice_get system.components x ≡ Some c → slice_get w.leaves x ≡ Some leaf → Active leaf.phase → leaf.todo ≡ Do i rest
        → next system w x ≡ instruct (step_at system w x c leaf rest) i }
{}

/// What a statement does to a leaf's registers and to slots is the leaf's step. In every world in which the leaf stands before it, the next step leads to the
/// one in which the leaf stands after it. There it has the new operands, and is at the next place and one step further. Or the step is wrong with the same
/// fault. It does nothing.
pub fn stepped()
    ensures done { (x : ℕ) (bs : List ℕ) (i : Instruction) (old new : LeafState) (core : Core) (s t : Slots) (a : Actor) → a.leaf ≡ x → a.current ≡ old.current
        → Does a bs i old.registers core s t (Ok tt) → new ≡ stepped old core.operands → Steps x bs i old new s t (Ok tt) }
    ensures wrong { (x : ℕ) (bs : List ℕ) (i : Instruction) (old new : LeafState) (core : Core) (s t : Slots) (a : Actor) (wrong : Wrong) → a.leaf ≡ x
        → a.current ≡ old.current → Does a bs i old.registers core s t (Err wrong) → Steps x bs i old new s t (Err wrong) }
{}
