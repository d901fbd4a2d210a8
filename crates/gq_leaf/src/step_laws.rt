// Laws of steps that are no statement, over the machine's world of slots.
ghost use Rattle.std.specs.Prelude.{◌≡◌, ◌<◌, ℕ, true, List, None, Ok, Err, Some, length, slice_get};
ghost use Rattle.gq_model.specs.declared.phase.Phase.TheVariants as phase;
ghost use Rattle.gq_model.specs.machine.Doing.{Idle, Quiet};
ghost use Rattle.gq_model.specs.declared.fault.Wrong.TheVariants.{MissingSection};
ghost use Rattle.gq_model.specs.declared.section.Section.TheVariants.{Reacting};
ghost use Rattle.gq_model.specs.machine.Program.{Statements, section_in};
ghost use Rattle.gq_model.specs.machine.Run.{submit};
ghost use Rattle.gq_model.specs.machine.Scenario.{System, Component};
ghost use Rattle.gq_model.specs.machine.Step.{first_signal, next};
ghost use Rattle.gq_model.specs.machine.World as world;
ghost use Rattle.gq_bytecode.specs.declared.operation.Operation.TheVariants as operation;
ghost use Rattle.gq_laws.specs.Leaf_phases.{serves};
ghost use Rattle.gq_bytecode.specs.Nexts.{Active};
ghost use Rattle.gq_slots.specs.Slots.{Frame, Slots, world_seen};
ghost use Rattle.gq_statements.specs.Systems.{AreLawful};
ghost use Rattle.gq_statements.specs.declared.actor.Current.{Current};
ghost use Rattle.gq_leaf.specs.Leaf_frames.{IsElsewhere};
ghost use Rattle.gq_leaf.specs.Leaf_states.{LeafState, leaf_of};
ghost use Rattle.gq_leaf.specs.Coded.{Coded, IsStanding, operation_of};
ghost use Rattle.gq_leaf.specs.Section_boundaries.{reacted, served, submitted};
ghost use Rattle.gq_leaf.specs.Section_steps.{Accepts, Exits, IsGone, IsReplied, Replies};
ghost use Rattle.gq_leaf.specs.Idle_phases.{Rests};

/// A leaf that is pending, blocked or has exited does nothing. It does nothing.
pub fn rests()
    ensures { (system : System) (f : Frame) (s : Slots) (x : ℕ) (c : Component) (l : Coded) (bs : List ℕ) → AreLawful s
        → IsStanding system f s x c l bs → Rests l.state.phase → next system (world_seen f s) x ≡ Ok (world_seen f s, Idle) }
{}

/// A leaf that serves, and of whose signals none is submitted, takes the oldest request to it. It does nothing.
pub fn accepts()
    ensures { (system : System) (f : Frame) (s : Slots) (x : ℕ) (c : Component) (l : Coded) (bs : List ℕ) → AreLawful s
        → IsStanding system f s x c l bs → l.state.phase ≡ phase.Serving → first_signal l.state.signals ≡ None → Accepts system f s x c l }
{}

/// A leaf that serves takes the first of its signals that is submitted, before any request, and is at the start of its section. It is wrong if the program has
/// no such section. It does nothing.
pub fn reacts()
    ensures taken { (system : System) (f g : Frame) (s : Slots) (x : ℕ) (c : Component) (l : Coded) (bs : List ℕ) (i : ℕ) (signals : List world.Signal)
        (body : Statements) → AreLawful s → IsStanding system f s x c l bs → l.state.phase ≡ phase.Serving → l.state.current ≡ None
        → first_signal l.state.signals ≡ Some (i, signals) → section_in (Reacting i) c.node.program.sections ≡ Some body → IsElsewhere f g x
        → g.leaf x ≡ leaf_of c.node.program (reacted l.state i signals) → next system (world_seen f s) x ≡ Ok (world_seen g s, Quiet) }
    ensures missing { (system : System) (f : Frame) (s : Slots) (x : ℕ) (c : Component) (l : Coded) (bs : List ℕ) (i : ℕ) (signals : List world.Signal)
        → AreLawful s → IsStanding system f s x c l bs → l.state.phase ≡ phase.Serving → first_signal l.state.signals ≡ Some (i, signals)
        → section_in (Reacting i) c.node.program.sections ≡ None → next system (world_seen f s) x ≡ Err MissingSection }
{}

/// A signal that is submitted is no step: the leaf has that signal submitted, and all else is as it was. It does nothing.
pub fn submits()
    ensures { (system : System) (f g : Frame) (s : Slots) (x : ℕ) (c : Component) (l : Coded) (bs : List ℕ) (i : ℕ) → AreLawful s
        → IsStanding system f s x c l bs → IsElsewhere f g x → g.leaf x ≡ leaf_of c.node.program (submitted l.state i)
        → world_seen g s ≡ submit (world_seen f s) x i }
{}

/// At the end of `main` a leaf that provides a service or has signals waits for them. It does nothing.
pub fn main_serves()
    ensures { (system : System) (f : Frame) (s : Slots) (x : ℕ) (c : Component) (l : Coded) (bs : List ℕ) (g : Frame) → AreLawful s
        → IsStanding system f s x c l bs → Active l.state.phase → operation_of l ≡ Some operation.End → l.state.current ≡ None → l.state.reacting ≡ None
        → serves c.node.provides c.node.signals ≡ true → IsElsewhere f g x → g.leaf x ≡ leaf_of c.node.program (served l.state)
        → next system (world_seen f s) x ≡ Ok (world_seen g s, Quiet) }
{}

/// At the end of the section for a signal the leaf waits for the next signal or request. Nothing is replied. It does nothing.
pub fn reaction_ends()
    ensures { (system : System) (f : Frame) (s : Slots) (x : ℕ) (c : Component) (l : Coded) (bs : List ℕ) (i : ℕ) (g : Frame) → AreLawful s
        → IsStanding system f s x c l bs → Active l.state.phase → operation_of l ≡ Some operation.End → l.state.current ≡ None → l.state.reacting ≡ Some i
        → IsElsewhere f g x → g.leaf x ≡ leaf_of c.node.program (served l.state) → next system (world_seen f s) x ≡ Ok (world_seen g s, Quiet) }
{}

/// At the end of a section for a session its server replies: it waits for requests, and the session's client, which was blocked, goes on. It does nothing.
pub fn replies()
    ensures { (system : System) (f g : Frame) (s : Slots) (x y : ℕ) (c d : Component) (l : Coded) (bs : List ℕ) (h : Current) (q : world.Session)
        (client : LeafState) (ops : List ℕ) → AreLawful s → IsStanding system f s x c l bs → Active l.state.phase
        → operation_of l ≡ Some operation.End → l.state.current ≡ Some h → world.session_at (world_seen f s) h.session ≡ Some q → q.client ≡ y
        → (y ≡ x → ⊥) → y < length s.own → f.leaf y ≡ leaf_of d.node.program client → client.phase ≡ phase.Blocked
        → IsReplied f g x y c d l.state client ops → Replies system f g s x c l h q client.registers.operands ops }
{}

/// At the end of `main` a leaf that provides nothing and has no signals exits, if it has closed its sessions, and who waited for it runs. It does nothing.
pub fn exits()
    ensures { (system : System) (f g : Frame) (s : Slots) (x : ℕ) (c : Component) (l : Coded) (bs : List ℕ) → AreLawful s
        → IsStanding system f s x c l bs → Active l.state.phase → operation_of l ≡ Some operation.End → l.state.current ≡ None
        → l.state.reacting ≡ None → c.node.provides ≡ None → c.node.signals ≡ 0 → IsGone system f g x c l.state → Exits system f g s x c }
{}
