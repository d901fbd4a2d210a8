// Numbers of nodes.
ghost use Rattle.std.specs.Prelude.{◌≡◌};

use std::marker::Model;

/// The place of a node among a scenario's nodes in preorder, the root's being 0.
#[derive(Clone, Copy, PartialEq, Eq)]
pub struct NodeNo {
    place: u32,
}

impl Model for NodeNo {
    ghost use Rattle.std.specs.Prelude.{ℕ};

    ghost Value = { ℕ };

    ghost view = { λ a. a.place };

    ghost inverse = { λ n. record { place = n } };
}

impl NodeNo {
    /// The node at this place.
    pub fn new(place: u32) -> NodeNo
        ensures { result ≡ place }
    {
        NodeNo { place }
    }

    /// Its place.
    pub fn number(self) -> u32
        ensures { result ≡ self }
    {
        self.place
    }

    /// Its place, as an index.
    pub fn index(self) -> usize
        ensures { result ≡ self }
    {
        self.number() as usize
    }
}
