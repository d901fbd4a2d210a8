// What a program is judged by.
ghost use Rattle.std.specs.Prelude.{◌≡◌, ◌≤◌, nat_le, option_copied, is_some, slice_get, IfSome, IsTrue};
ghost use Rattle.gq_model.specs.machine.Program.{section_in, size};
ghost use Rattle.gq_model.specs.machine.Lists.{all_of};
ghost use Rattle.gq_model.specs.machine.Sections.{is_section};
ghost use Rattle.gq_model.specs.machine.Scenario.{interface_in, number_of};
ghost use Rattle.gq_rules.specs.Flowing.{few_loops};

use gq_program::{Body, Interface, Interfaces, Program, Section};
use std::marker::Model;

/// A program, the interface that it provides, if any, all interfaces, the greatest values of its inputs, and the number of its signals.
#[derive(Drop)]
pub struct Subject<'a> {
    program: &'a Program,
    provided: Option<&'a Interface>,
    interfaces: &'a Interfaces,
    inputs: &'a [u32],
    signals: u8,
}

impl<'a> Model for Subject<'a> {
    ghost use Rattle.std.specs.Prelude.{option_copied};
    ghost use Rattle.gq_model.specs.rules.Kinds.{Subject};
    ghost use Rattle.gq_model.specs.internal.Stored.{statements_code};
    ghost use Rattle.std.specs.Coded.{codes};

    ghost Value = { Subject };

    ghost coded = { Prim.hlevel (codes, statements_code (Prim.hlevel codes)) };

    ghost view = { λ s. record {
      program = s.program.now;
      provided = option_copied s.provided;
      interfaces = s.interfaces.now;
      inputs = s.inputs.now;
      signals = s.signals;
    } };
}

impl<'a> Subject<'a> {
    /// A program with what it is judged by.
    pub fn new(
        program: &'a Program,
        provided: Option<&'a Interface>,
        interfaces: &'a Interfaces,
        inputs: &'a [u32],
        signals: u8,
    ) -> Subject<'a>
        ensures { result ≡ record {
          program = program.now;
          provided = option_copied provided.entry;
          interfaces = interfaces.now;
          inputs = inputs.now;
          signals = signals;
        } }
    {
        Subject {
            program,
            provided,
            interfaces,
            inputs,
            signals,
        }
    }

    /// The program.
    pub fn program(&self) -> &Program
        ensures { result.now ≡ self.now.program }
    {
        self.program
    }

    /// The sections that are there, in their order; each section is one that there may be.
    pub fn sections(&self) -> &[(Section, Body)]
        ensures sections { result.now ≡ self.now.program.sections }
        ensures each { IsTrue (all_of (λ p. is_section p.0) result.now) }
        ensures few { IsTrue (all_of (λ p. nat_le (size p.1) 4096) result.now) }
    {
        let program = self.program;
        program.laws();
        program.sections()
    }

    /// The interface of the service that it provides.
    pub fn provided(&self) -> Option<&Interface>
        ensures { option_copied result ≡ self.now.provided }
    {
        self.provided
    }

    /// The interface of the service with this name, if there is one.
    pub fn interface(&self, service: &[u8]) -> Option<&Interface>
        ensures { option_copied result ≡ interface_in service.now self.now.interfaces }
    {
        let interfaces = self.interfaces;
        interfaces.named(service)
    }

    /// The greatest value of an input, where the program has one of this number.
    pub fn input(&self, number: u32) -> Option<u32>
        ensures { result ≡ slice_get self.now.inputs number }
    {
        self.inputs.get(number as usize).copied()
    }

    /// The number of its signals.
    pub fn signals(&self) -> u8
        ensures { result ≡ self.now.signals }
    {
        self.signals
    }

    /// The bytes of the object of a session of the program's service; 0 where it provides none.
    pub fn object(&self) -> u32
        ensures { result ≡ number_of self.now.provided (λ i. i.object) }
    {
        match self.provided {
            Some(interface) => interface.object(),
            None => 0,
        }
    }

    /// The bytes of the buffer of a session of the program's service; 0 where there is none.
    pub fn buffer(&self) -> u32
        ensures { result ≡ number_of self.now.provided (λ i. i.buffer) }
    {
        match self.provided {
            Some(interface) => interface.buffer(),
            None => 0,
        }
    }

    /// The greatest argument of a call of the program's service; 0 where it provides none.
    pub fn arg(&self) -> u32
        ensures { result ≡ number_of self.now.provided (λ i. i.arg) }
    {
        match self.provided {
            Some(interface) => interface.arg(),
            None => 0,
        }
    }

    /// The greatest reply of a call of the program's service; 0 where it provides none.
    pub fn reply(&self) -> u32
        ensures { result ≡ number_of self.now.provided (λ i. i.reply) }
    {
        match self.provided {
            Some(interface) => interface.reply(),
            None => 0,
        }
    }

    /// Whether the program has this section.
    pub fn has(&self, section: Section) -> bool
        ensures { result ≡ is_some (section_in section self.now.program.sections) }
    {
        match self.body(section) {
            Some(_) => true,
            None => false,
        }
    }

    /// The statements of a section, where it is there: at most 4096, with at most four loops in one another.
    pub fn body(&self, section: Section) -> Option<&Body>
        ensures body { option_copied result ≡ section_in section self.now.program.sections }
        ensures loops { IfSome result (λ b. IsTrue (few_loops 4 b.now)) }
        ensures few { IfSome result (λ b. size b.now ≤ 4096) }
    {
        let program = self.program;
        program.laws();
        section_in(program.sections(), section)
    }
}

/// The statements of a section, where it is among these.
fn section_in(sections: &[(Section, Body)], section: Section) -> Option<&Body>
    ensures { option_copied result ≡ section_in section sections.now }
{
    for (there, body) in sections {
        if section == *there {
            return Some(body);
        }
    }
    None
}
