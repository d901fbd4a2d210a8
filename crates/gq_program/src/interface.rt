// What services ask of their clients, and give them.
ghost use Rattle.std.specs.Prelude.{◌≡◌, ◌≤◌, ◌<◌, ◌++◌, ◌∷◌, [], length, if◌then◌else◌, IsTrue, Some, None, IfOk, option_copied};
ghost use Rattle.gq_model.specs.machine.Amounts.{Ram, Caps, amount};
ghost use Rattle.gq_model.specs.machine.Scenario.{interface_in};
ghost use Rattle.gq_program.specs.Interfaces.{interface_of, or_none, need_caps, is_before, is_rising, are_interfaces};
ghost use Rattle.gq_program.specs.Interfaces.{all_unbounded, counted_by, place_in, unbounded};

use arrayvec::ArrayVec;
pub use gq_model::limits::{GREATEST_INTERFACES, GREATEST_LEVEL};
use gq_model::program::Name;
use gq_model::spelling::same_text;
use std::alloc::{AllocError, Global};
use std::marker::Model;

/// How many there are of what the letters of a name are mixed to.
const MIXED: usize = 256;

/// What a client gives more for the next level: bytes of RAM, and capabilities (0 in version 1).
#[derive(Clone, Copy, Default)]
pub struct Upgrade {
    ram: u32,
    caps: u32,
}

impl Model for Upgrade {
    ghost use Rattle.std.specs.Prelude.{◌≤◌};
    ghost use Rattle.gq_model.specs.machine.Amounts.{Amount, amount};

    ghost Value = { Amount };

    ghost view = { λ u. amount u.ram u.caps };

    ghost invariant = { λ u. u.caps ≤ 65536 };

    ghost inverse = { λ a. record { ram = a.ram; caps = a.caps } };
}

impl Upgrade {
    /// So many bytes, and so many capabilities.
    pub fn new(ram: u32, caps: u32) -> Upgrade
        requires { caps ≤ 65536 }
        ensures { result ≡ amount ram caps }
    {
        Upgrade { ram, caps }
    }

    /// The bytes.
    pub fn ram(&self) -> u32
        ensures { result ≡ self.now.ram }
    {
        self.ram
    }

    /// The capabilities, at most 65536.
    pub fn caps(&self) -> u32
        ensures caps { result ≡ self.now.caps }
        ensures small { result ≤ 65536 }
    {
        self.caps
    }
}

/// Of what a session may cost no more than is given for it.
#[derive(Clone, Copy)]
pub enum Counts {
    /// It may cost anything: quantities are not judged.
    Nothing,
    /// Bytes alone, as in version 1.
    Bytes,
    /// Bytes and capabilities, as from version 2 on.
    BytesAndCaps,
}

/// What a service asks of its clients, and gives them.
#[derive(Drop)]
pub struct Interface {
    arg: u32,
    reply: u32,
    need_ram: u32,
    need_caps: Option<u32>,
    object: u32,
    upgrades: ArrayVec<Upgrade, GREATEST_LEVEL>,
    buffer: u32,
    // Whether its sessions may cost no more than is given for them.
    is_bounded: bool,
}

impl Model for Interface {
    ghost use Rattle.std.specs.Prelude.{◌≤◌};
    ghost use Rattle.gq_model.specs.machine.Scenario.{Interface};
    ghost use Rattle.gq_program.specs.Interfaces.{bounded_by, interface_of, or_none};

    ghost Value = { Interface };

    ghost view = { λ i. bounded_by i.is_bounded (interface_of i.arg i.reply i.need_ram i.need_caps i.object i.upgrades.items i.buffer) };

    ghost invariant = { λ i. (or_none i.need_caps ≤ 65536) × (i.object ≤ 65536) × (i.buffer ≤ 1048576) };
}

impl Interface {
    /// An interface without object, upgrades and buffer. It has the greatest argument and reply of a call, and what a session needs:
    /// bytes and, from version 2 on, capabilities.
    pub fn new(arg: u32, reply: u32, need: u32, need_caps: Option<u32>) -> Interface
        requires { or_none need_caps ≤ 65536 }
        ensures { result ≡ interface_of arg reply need need_caps 0 [] 0 }
    {
        Interface {
            arg,
            reply,
            need_ram: need,
            need_caps,
            object: 0,
            upgrades: ArrayVec::new(),
            buffer: 0,
            is_bounded: true,
        }
    }

    /// The same where it asks for no bytes, and its sessions may cost anything: what is left of it once its quantities are left out.
    pub fn unbounded(&self) -> Interface
        ensures { result ≡ unbounded self.now }
    {
        let mut upgrades = ArrayVec::new();
        for upgrade in self.upgrades() {
            upgrades.push(Upgrade::new(0, upgrade.caps()));
        }
        Interface {
            arg: self.arg,
            reply: self.reply,
            need_ram: 0,
            need_caps: self.need_caps,
            object: self.object,
            upgrades,
            buffer: self.buffer,
            is_bounded: false,
        }
    }

    /// The same with an object of so many bytes in each session.
    pub fn with_object(self, object: u32) -> Interface
        requires { object ≤ 65536 }
        ensures { result ≡ record self { object = object } }
    {
        Interface { object, ..self }
    }

    /// The same with a buffer of so many bytes; 0 is none.
    pub fn with_buffer(self, buffer: u32) -> Interface
        requires { buffer ≤ 1048576 }
        ensures { result ≡ record self { buffer = buffer } }
    {
        Interface { buffer, ..self }
    }

    /// The same with one level more.
    pub fn with_upgrade(mut self, upgrade: Upgrade) -> Interface
        requires { length self.upgrades < 3 }
        ensures { result ≡ record self { upgrades = self.upgrades ++ upgrade ∷ [] } }
    {
        self.upgrades.push(upgrade);
        self
    }

    /// The greatest argument of a call.
    pub fn arg(&self) -> u32
        ensures { result ≡ self.now.arg }
    {
        self.arg
    }

    /// The greatest reply of a call.
    pub fn reply(&self) -> u32
        ensures { result ≡ self.now.reply }
    {
        self.reply
    }

    /// The bytes that a client gives at least.
    pub fn need(&self) -> u32
        ensures { result ≡ self.now.need.ram }
    {
        self.need_ram
    }

    /// The capabilities that a client gives at least, at most 65536; `None` in version 1, which counts none.
    pub fn need_caps(&self) -> Option<u32>
        ensures caps { result ≡ need_caps self.now }
        ensures small { or_none result ≤ 65536 }
    {
        if self.is_bounded {
            self.need_caps
        } else {
            None
        }
    }

    /// The capabilities that are given with a request to open, at most 65536; 0 in version 1.
    pub fn given_caps(&self) -> u32
        ensures caps { result ≡ self.now.need.caps }
        ensures small { result ≤ 65536 }
    {
        self.need_caps.unwrap_or(0)
    }

    /// Of what its sessions may cost no more than is given for them.
    pub fn counts(&self) -> Counts
        ensures { self.now.counted ≡ counted_by result }
    {
        match (self.is_bounded, self.need_caps) {
            (false, _) => Counts::Nothing,
            (true, None) => Counts::Bytes,
            (true, Some(_)) => Counts::BytesAndCaps,
        }
    }

    /// The bytes of the object of a session, at most 65536.
    pub fn object(&self) -> u32
        ensures object { result ≡ self.now.object }
        ensures small { result ≤ 65536 }
    {
        self.object
    }

    /// What is given more for each level after the first, at most three.
    pub fn upgrades(&self) -> &[Upgrade]
        ensures upgrades { result.now ≡ self.now.upgrades }
        ensures few { length result.now ≤ 3 }
    {
        self.upgrades.as_slice()
    }

    /// The bytes of the buffer, at most 1048576; 0 is none.
    pub fn buffer(&self) -> u32
        ensures buffer { result ≡ self.now.buffer }
        ensures small { result ≤ 1048576 }
    {
        self.buffer
    }
}

/// Whether a name comes before those of these.
fn is_before(name: &Name, entries: &[(Name, Interface)]) -> bool
    ensures { result ≡ is_before name.now entries.now }
{
    match entries {
        [(first, _), ..] => name.as_bytes().cmp(first.as_bytes()).is_lt(),
        [] => true,
    }
}

/// Whether the names rise in byte order.
fn is_rising(entries: &[(Name, Interface)]) -> bool
    ensures { result ≡ is_rising entries.now }
{
    match entries {
        [(first, _), rest @ ..] => is_before(first, rest) && is_rising(rest),
        [] => true,
    }
}

/// What the letters of a name are mixed to.
fn mixed(name: &[u8]) -> u8 {
    let mut mixed = 0u8;
    for letter in name {
        mixed = mixed.wrapping_mul(31).wrapping_add(*letter);
    }
    mixed
}

/// For each of what names are mixed to, where one of those that are mixed to it stands.
fn places_of(entries: &[(Name, Interface)]) -> [u8; MIXED] {
    let mut places = [0; MIXED];
    let mut place = 0u8;
    for (service, _) in entries {
        places[usize::from(mixed(service.as_bytes()))] = place;
        place = place.wrapping_add(1);
    }
    places
}

/// Interfaces by the names of their services: at most 64, in the byte order of the names.
#[derive(Drop)]
pub struct Interfaces {
    entries: Vec<(Name, Interface)>,
    // Where a name is looked for first.
    places: [u8; MIXED],
}

impl Model for Interfaces {
    ghost use Rattle.std.specs.Prelude.{IsTrue};
    ghost use Rattle.gq_model.specs.machine.Scenario as scenario;
    ghost use Rattle.gq_program.specs.Interfaces.{are_interfaces};

    ghost Value = { scenario.Interfaces };

    ghost view = { λ i. i.entries.items };

    ghost invariant = { λ i. IsTrue (are_interfaces i.entries.items) };
}

impl Interfaces {
    /// These interfaces, where they are at most 64 and stand in the order of their names, each name once.
    pub fn new(entries: Vec<(Name, Interface)>) -> Option<Interfaces>
        ensures { result ≡ (if are_interfaces entries.items then Some entries.items else None) }
    {
        if entries.len() <= GREATEST_INTERFACES && is_rising(&entries) {
            let places = places_of(&entries);
            Some(Interfaces { entries, places })
        } else {
            None
        }
    }

    /// The same, each without its quantities. Refused only if the host refuses memory.
    pub fn unbounded(&self, alloc: Global) -> Result<Interfaces, AllocError>
        ensures { IfOk result (λ i. i ≡ all_unbounded self.now) }
    {
        let mut entries = Vec::new(alloc);
        for (service, interface) in self.entries() {
            entries.push((service.copied(), interface.unbounded()))?;
        }
        Ok(Interfaces {
            entries,
            places: self.places,
        })
    }

    /// Where the interface of the service with this name stands among them, if it does.
    pub fn place(&self, name: &[u8]) -> Option<usize>
        ensures { result ≡ place_in name.now self.now }
    {
        for (place, (service, _interface)) in self.entries().iter().enumerate() {
            if same_text(name, service.as_bytes()) {
                return Some(place);
            }
        }
        None
    }

    /// Each with the name of its service, in the order of the names.
    pub fn entries(&self) -> &[(Name, Interface)]
        ensures entries { result.now ≡ self.now }
        ensures in_order { IsTrue (are_interfaces self.now) }
    {
        self.entries.as_slice()
    }

    /// The interface of the service with this name, if there is one. It is looked for where the letters of the name are reported to stand; a place that is
    /// reported wrongly costs time alone.
    pub fn named(&self, name: &[u8]) -> Option<&Interface>
        ensures { option_copied result ≡ interface_in name.now self.now }
    {
        let place = self.places[usize::from(mixed(name))];
        match self.entries().get(usize::from(place)) {
            Some((service, interface)) if same_text(name, service.as_bytes()) => Some(interface),
            _ => self.among(name),
        }
    }

    /// The interface of the service with this name, if it is among them, looked for one by one.
    fn among(&self, name: &[u8]) -> Option<&Interface>
        ensures { option_copied result ≡ interface_in name.now self.now }
    {
        for (service, interface) in self.entries() {
            if same_text(name, service.as_bytes()) {
                return Some(interface);
            }
        }
        None
    }
}
