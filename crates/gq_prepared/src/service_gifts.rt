// What services give their clients.
ghost use Rattle.std.specs.Prelude.{◌≡◌, ◌<◌, length, map, get_or, slice_index_or, IfOk};
ghost use Rattle.gq_model.specs.machine.Amounts.{amount};
ghost use Rattle.gq_prepared.specs.Prepared.{AreServices, caps_at};
ghost use Rattle.gq_prepared.specs.internal.Upgraded.{AreUpgrades, IsUpgrades};

use gq_program::interface::{Interface, Interfaces, Upgrade};
use gq_resolve::NodeTable;
use gq_slots::Addresses;
use std::alloc::{AllocError, Global};
use std::marker::Model;

/// What is fixed of all services, by their numbers: the bytes of the object of a session, and the capabilities that are given with an upgrade of a session of
/// each level. The bytes of the buffer, by which addresses are resolved.
#[derive(Drop)]
pub struct Services {
    objects: Vec<u32>,
    upgrades: Vec<[u64; 3]>,
    addresses: Addresses,
}

impl Model for Services {
    ghost use Rattle.gq_prepared.specs.Prepared.{Given};

    ghost Value = { Given };

    ghost view = { λ s. record { objects = s.objects.items; upgrades = s.upgrades.items; buffers = s.addresses } };
}

// The bytes of the object of a session, for each service.
fn objects_of(alloc: Global, interfaces: &Interfaces) -> Result<Vec<u32>, AllocError>
    ensures { IfOk result (λ v. v.items ≡ map (λ e. e.1.object) interfaces.now) }
{
    let mut objects = Vec::new(alloc);
    for (_, interface) in interfaces.entries() {
        objects.push(interface.object())?;
    }
    Ok(objects)
}

// The bytes of the buffer, for each service.
fn buffers_of(alloc: Global, interfaces: &Interfaces) -> Result<Vec<u32>, AllocError>
    ensures { IfOk result (λ v. v.items ≡ map (λ e. e.1.buffer) interfaces.now) }
{
    let mut buffers = Vec::new(alloc);
    for (_, interface) in interfaces.entries() {
        buffers.push(interface.buffer())?;
    }
    Ok(buffers)
}

// The capabilities that are given at a level; 0 past the last upgrade.
fn caps_given(upgrades: &[Upgrade], level: usize) -> u64
    ensures { result ≡ (slice_index_or upgrades.now level (amount 0 0)).caps }
{
    match upgrades.get(level) {
        None => 0,
        Some(upgrade) => u64::from(upgrade.caps()),
    }
}

// The capabilities that are given at each level of a service.
fn upgrades_of(interface: &Interface) -> [u64; 3]
    ensures { IsUpgrades interface.now.upgrades result }
{
    let upgrades = interface.upgrades();
    [
        caps_given(upgrades, 0),
        caps_given(upgrades, 1),
        caps_given(upgrades, 2),
    ]
}

// The capabilities that are given at each level, for each service.
fn all_upgrades(alloc: Global, interfaces: &Interfaces) -> Result<Vec<[u64; 3]>, AllocError>
    ensures { IfOk result (λ v. AreUpgrades interfaces.now v.items) }
{
    let mut upgrades = Vec::new(alloc);
    for (_, interface) in interfaces.entries() {
        upgrades.push(upgrades_of(interface))?;
    }
    Ok(upgrades)
}

impl Services {
    /// The services of a scenario. Refused only if the host refuses memory.
    pub fn new(alloc: Global, table: &NodeTable) -> Result<Services, AllocError>
        ensures { IfOk result (λ v. AreServices table.now v) }
    {
        let interfaces = table.scenario().interfaces();
        let _entries = interfaces.entries();
        let objects = objects_of(alloc, interfaces)?;
        let upgrades = all_upgrades(alloc, interfaces)?;
        let buffers = buffers_of(alloc, interfaces)?;
        Ok(Services {
            objects,
            upgrades,
            addresses: Addresses::new(buffers),
        })
    }

    /// The bytes of the object of a session to a service.
    pub fn object(&self, service: usize) -> u32
        requires { service < length self.now.objects }
        ensures { result ≡ get_or self.now.objects service 0 }
    {
        self.objects[service]
    }

    /// The capabilities that are given with an upgrade of a session of this level, 0 past the last upgrade of the service.
    pub fn upgrade_caps(&self, service: usize, level: u8) -> u64
        ensures { result ≡ caps_at self.now service level }
    {
        match self.upgrades.get(service) {
            None => 0,
            Some(upgrades) => match upgrades.get(usize::from(level)) {
                None => 0,
                Some(&caps) => caps,
            },
        }
    }

    /// The addresses of a leaf, by the bytes of the services' buffers.
    pub fn addresses(&self) -> &Addresses
        ensures { result.now ≡ self.now.buffers }
    {
        &self.addresses
    }
}
