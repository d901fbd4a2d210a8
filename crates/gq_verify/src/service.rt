// Names of services that are searched for.
ghost use Rattle.std.specs.Prelude.{◌≡◌};
ghost use Rattle.gq_program.specs.Name_keys.{key_of};

use gq_program::name_keys::key_of;
use std::marker::Model;

/// The name of a service, with a number that is made of it: services with other numbers are other ones, so that a search goes over numbers.
#[derive(Drop)]
pub struct Service<'a> {
    name: &'a [u8],
    key: u64,
}

impl<'a> Model for Service<'a> {
    ghost use Rattle.std.specs.Prelude.{◌≡◌, ℕ, List};
    ghost use Rattle.gq_program.specs.Name_keys.{key_of};

    ghost Value = { List ℕ };

    ghost view = { λ s. s.name.now };

    ghost invariant = { λ s. s.key ≡ key_of s.name.now };
}

impl<'a> Service<'a> {
    /// The service of this name.
    pub fn new(name: &'a [u8]) -> Service<'a>
        ensures { result ≡ name.now }
    {
        Service {
            name,
            key: key_of(name),
        }
    }

    /// Its name.
    pub(crate) fn name(&self) -> &[u8]
        ensures { result.now ≡ self.now }
    {
        self.name
    }

    /// The number that is made of it.
    pub(crate) fn key(&self) -> u64
        ensures { result ≡ key_of self.now }
    {
        self.key
    }
}
