// The keys of a scenario's tables.
ghost use Rattle.std.specs.Prelude.{◌≡◌, Some, if◌then◌else◌, map, codes};
ghost use Rattle.gq_model.specs.machine.Lists.{any_of};
ghost use Rattle.gq_model.specs.machine.Program.{text_eq};
ghost use Rattle.gq_scenario.specs.Top_table.{key_word};
ghost use Rattle.gq_scenario.specs.Fault_words.{key_text, printed_key};

use std::fmt::{Display, Error, Formatter, Write};

/// A key of a scenario's tables.
#[derive(Clone, Copy)]
pub enum Key {
    Version,
    Ram,
    Caps,
    DefaultRoute,
    Interface,
    Start,
    Arg,
    Reply,
    Need,
    NeedCaps,
    Object,
    Upgrades,
    UpgradeCaps,
    Buffer,
    Name,
    Quantum,
    Route,
    Provides,
    After,
    Inputs,
    Signals,
    Offers,
    Program,
    Code,
    Service,
    AnyService,
    Child,
    AnyChild,
    Parent,
}

/// All of them.
const KEYS: [Key; 29] = [
    Key::Version,
    Key::Ram,
    Key::Caps,
    Key::DefaultRoute,
    Key::Interface,
    Key::Start,
    Key::Arg,
    Key::Reply,
    Key::Need,
    Key::NeedCaps,
    Key::Object,
    Key::Upgrades,
    Key::UpgradeCaps,
    Key::Buffer,
    Key::Name,
    Key::Quantum,
    Key::Route,
    Key::Provides,
    Key::After,
    Key::Inputs,
    Key::Signals,
    Key::Offers,
    Key::Program,
    Key::Code,
    Key::Service,
    Key::AnyService,
    Key::Child,
    Key::AnyChild,
    Key::Parent,
];

impl Key {
    /// The key as a scenario writes it.
    pub fn word(self) -> &'static str
        ensures { result.now ≡ key_text self }
    {
        match self {
            Key::Version => "version",
            Key::Ram => "ram",
            Key::Caps => "caps",
            Key::DefaultRoute => "default-route",
            Key::Interface => "interface",
            Key::Start => "start",
            Key::Arg => "arg",
            Key::Reply => "reply",
            Key::Need => "need",
            Key::NeedCaps => "need-caps",
            Key::Object => "object",
            Key::Upgrades => "upgrades",
            Key::UpgradeCaps => "upgrade-caps",
            Key::Buffer => "buffer",
            Key::Name => "name",
            Key::Quantum => "quantum",
            Key::Route => "route",
            Key::Provides => "provides",
            Key::After => "after",
            Key::Inputs => "inputs",
            Key::Signals => "signals",
            Key::Offers => "offers",
            Key::Program => "program",
            Key::Code => "code",
            Key::Service => "service",
            Key::AnyService => "any-service",
            Key::Child => "child",
            Key::AnyChild => "any-child",
            Key::Parent => "parent",
        }
    }

    /// Whether a text is this key.
    pub fn is(self, text: &str) -> bool
        ensures { result ≡ text_eq text.now (key_text self) }
    {
        text == self.word()
    }
}

impl Display for Key {
    ghost output = { λ key. Some (key_text key) };

    fn fmt<W: Write>(&self, f: &mut Formatter<W>) -> Result<(), Error> {
        f.write_str(self.word())
    }
}

// The key that a text is, if it is one of these.
fn key_among(keys: &[Key], text: &str) -> Option<Key>
    ensures { printed_key result ≡ (if any_of (text_eq text.now) (map key_text keys.now) then text.now else codes "?") }
{
    for key in keys {
        if key.is(text) {
            return Some(*key);
        }
    }
    None
}

/// The key that a text is, if it is one of any table.
pub fn key_of(text: &str) -> Option<Key>
    ensures { printed_key result ≡ key_word text.now }
{
    key_among(&KEYS, text)
}
