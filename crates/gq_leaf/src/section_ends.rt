// How a leaf stands at the end of a section, at its start, and when it goes on.
ghost use Rattle.std.specs.Prelude.{◌≡◌, ◌+◌, ◌<◌, ◌^◌, ◌∷◌, List, [], length, None, Some, option_map};
ghost use Rattle.gq_model.specs.declared.phase.Phase.TheVariants as phase;
ghost use Rattle.gq_model.specs.machine.Step.{first_signal};
ghost use Rattle.gq_model.specs.machine.World.{Signal};
ghost use Rattle.gq_leaf.specs.Section_boundaries.{begun, exited, reacted, resumed, served};

use crate::leaf::Leaf;
use gq_model::phase::Phase;
use gq_model::section::Section;
use gq_statements::Current;

impl Leaf {
    /// It waits for a signal or a request from now on, a step further.
    pub fn serve(&mut self)
        requires { self.old.state.steps + 1 < 2 ^ 64 }
        ensures { self.new ≡ record self.old { state = served self.old.state } }
    {
        self.phase = Phase::Serving;
        self.current = None;
        self.reacting = None;
        self.place = self.code.place(Section::Main);
        self.registers.clear();
        self.steps += 1;
    }

    /// It goes on where it waited.
    pub fn resume(&mut self)
        ensures { self.new ≡ record self.old { state = resumed self.old.state self.old.state.registers.operands } }
    {
        self.phase = match (self.current, self.reacting) {
            (None, None) => Phase::Running,
            (Some(_), _) | (None, Some(_)) => Phase::Handling,
        };
    }

    /// It goes on where it waited, with the reply to its call on top.
    pub fn resume_with(&mut self, reply: u32)
        requires { length self.old.state.registers.operands < 16 }
        ensures { self.new ≡ record self.old { state = resumed self.old.state (reply ∷ self.old.state.registers.operands) } }
    {
        self.registers.push(reply);
        self.resume();
    }

    /// It is at the start of the current section, a step further.
    pub fn begin(&mut self, current: Current)
        requires { self.old.state.steps + 1 < 2 ^ 64 }
        ensures { self.new ≡ record self.old { state = begun self.old.state current [] } }
    {
        self.phase = Phase::Handling;
        self.current = Some(current);
        self.place = self.code.place(current.section);
        self.registers.begin();
        self.steps += 1;
    }

    /// It is at the start of the current section, a step further, with the argument of a call on top.
    pub fn begin_with(&mut self, current: Current, argument: u32)
        requires { self.old.state.steps + 1 < 2 ^ 64 }
        ensures { self.new ≡ record self.old { state = begun self.old.state current (argument ∷ []) } }
    {
        self.phase = Phase::Handling;
        self.current = Some(current);
        self.place = self.code.place(current.section);
        self.registers.begin_with(argument);
        self.steps += 1;
    }

    /// It is at the start of the section for a signal, a step further: the first of its signals that is submitted, which is taken.
    pub fn react(&mut self, signal: u8)
        requires steps { self.old.state.steps + 1 < 2 ^ 64 }
        requires no_request { self.old.state.current ≡ None }
        requires first { option_map (λ p. p.0) (first_signal self.old.state.signals) ≡ Some signal }
        ensures { (signals : List Signal) → first_signal self.old.state.signals ≡ Some (signal, signals)
            → self.new ≡ record self.old { state = reacted self.old.state signal signals } }
    {
        self.phase = Phase::Handling;
        self.reacting = Some(signal);
        self.place = self.code.place(Section::Reacting(signal));
        self.registers.begin();
        self.signals.take(signal);
        self.steps += 1;
    }

    /// It has exited, a step further, and its inputs are 0.
    pub fn exit(&mut self)
        requires { self.old.state.steps + 1 < 2 ^ 64 }
        ensures { self.new ≡ record self.old { state = exited self.old.state } }
    {
        self.phase = Phase::Exited;
        self.registers.begin();
        self.registers.clear_inputs();
        self.steps += 1;
    }

    /// A leaf that waited for another to exit runs.
    pub fn release(&mut self)
        ensures { self.new ≡ record self.old { state = record self.old.state { phase = phase.Running } } }
    {
        self.phase = Phase::Running;
    }
}
