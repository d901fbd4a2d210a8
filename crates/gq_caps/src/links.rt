// How links are made, and what they report.
ghost use Rattle.std.specs.Prelude.{◌≡◌, ◌+◌, ◌*◌, ◌^◌, ◌≤◌, ◌<◌, length};
ghost use Rattle.gq_model.specs.machine.Amounts.{amount, plus};
ghost use Rattle.gq_model.specs.rules.Kinds.{same_kind};
ghost use Rattle.gq_caps.specs.Known_links.{service_of, level_of, given_of, link_known};

use crate::link::Link;
use gq_model::program::{GREATEST_NAME, Name};
use gq_model::spelling::same_text;
use gq_tariff::Amount;

impl Link {
    /// The link to a session of this service at level 0, for which so many bytes and capabilities were given.
    pub fn opened(service: &Name, ram: u32, caps: u32) -> Link
        requires { caps ≤ 65536 }
        ensures service { service_of result ≡ service.now }
        ensures level { level_of result ≡ 0 }
        ensures given { given_of result ≡ amount ram caps }
    {
        let bytes = service.as_bytes();
        let mut letters = [0; GREATEST_NAME];
        letters[..bytes.len()].copy_from_slice(bytes);
        Link {
            letters,
            length: bytes.len() as u8,
            level: 0,
            ram: u64::from(ram),
            caps,
        }
    }

    /// The link to the same session at the next level, for which so many more bytes and capabilities were given.
    pub fn upgraded(self, ram: u32, caps: u32) -> Link
        requires level { level_of self < 3 }
        requires caps { caps ≤ 65536 }
        ensures service { service_of result ≡ service_of self }
        ensures level { level_of result ≡ level_of self + 1 }
        ensures given { given_of result ≡ plus (given_of self) (amount ram caps) }
    {
        let letters = self.letters;
        Link {
            letters,
            length: self.length,
            level: self.level + 1,
            ram: self.ram + u64::from(ram),
            caps: self.caps + caps,
        }
    }

    /// The bytes of the name of its service.
    pub fn service(&self) -> &[u8]
        ensures { result.now ≡ service_of self.now }
    {
        &self.letters[..usize::from(self.length)]
    }

    /// The level of its session.
    pub fn level(&self) -> u8
        ensures level { result ≡ level_of self.now }
        ensures small { result ≤ 3 }
    {
        self.level
    }

    /// What was given for its session so far: at most 2^34 bytes and 2^18 capabilities.
    pub fn given(&self) -> Amount
        ensures given { result ≡ given_of self.now }
        ensures ram { result.ram ≤ 2 ^ 34 }
        ensures caps { result.caps ≤ 2 ^ 18 }
    {
        Amount {
            ram: self.ram,
            caps: u64::from(self.caps),
        }
    }

    /// Whether both are links to sessions of the same service at the same level, for which the same was given.
    pub fn is_same(&self, other: &Link) -> bool
        ensures { result ≡ same_kind (link_known self.now) (link_known other.now) }
    {
        same_text(self.service(), other.service())
            && self.level == other.level
            && self.ram == other.ram
            && self.caps == other.caps
    }
}
