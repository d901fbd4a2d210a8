// A leaf of a scenario, by the table of its nodes.
ghost use Rattle.std.specs.Prelude.{◌≡◌, ◌<◌, ◌≤◌, length, option_map};
ghost use Rattle.gq_model.specs.machine.Scenario.{components};
ghost use Rattle.gq_laws.specs.Ready.{IsReady};
ghost use Rattle.gq_views.specs.internal.Table_leaves.{leaf_of, served_by};

use gq_laws::ready::served;
use gq_model::limits::GREATEST_LABEL;
use gq_model::program::Name;
use gq_program::program_tree::Program;
use gq_resolve::NodeTable;
use gq_scenario::scenario::LeafNo;
use std::marker::Model;

/// A leaf of a scenario that can be run, by its number in the table of the nodes. No call walks the tree.
#[derive(Drop)]
pub struct TableLeaf<'a> {
    table: &'a NodeTable,
    leaf: LeafNo,
}

impl<'a> Model for TableLeaf<'a> {
    ghost use Rattle.std.specs.Coded.{codes};
    ghost use Rattle.gq_model.specs.internal.Stored.{statements_code, nodes_code};
    ghost use Rattle.gq_views.specs.internal.Table_leaves.{IsThere, LeafOfAll, leaf_of};

    ghost Value = { LeafOfAll };

    ghost coded = { Prim.hlevel (
      codes,
      statements_code (Prim.hlevel codes),
      nodes_code (Prim.hlevel (codes, statements_code (Prim.hlevel codes))) (Prim.hlevel codes),
    ) };

    ghost view = { λ l. leaf_of l.table.now l.leaf };

    ghost invariant = { λ l. IsThere l.table.now l.leaf };
}

impl<'a> TableLeaf<'a> {
    /// The leaf of this number.
    pub fn new(table: &'a NodeTable, leaf: LeafNo) -> TableLeaf<'a>
        requires ready { IsReady table.now }
        requires leaf { leaf < length (components table.now) }
        ensures { result ≡ leaf_of table.now leaf }
    {
        TableLeaf { table, leaf }
    }

    /// Its label: the names from the root's down, joined by arrows.
    pub fn label(&self) -> &'a [u8]
        ensures label { result.now ≡ self.now.component.label }
        ensures short { length result.now ≤ GREATEST_LABEL }
    {
        self.table.label(self.table.node(self.leaf))
    }

    /// Its program.
    pub fn program(&self) -> &'a Program
        ensures { result.now ≡ self.now.component.node.program }
    {
        &self.table.programs()[self.leaf.index()]
    }

    /// The service that it provides, if it provides one.
    pub fn provides(&self) -> Option<&'a Name>
        ensures { option_map (λ n. n.now) result ≡ self.now.component.node.provides }
    {
        match self.table.service(self.leaf) {
            Some(number) => {
                let (service, _interface) = &self
                    .table
                    .scenario()
                    .interfaces()
                    .entries()[number as usize];
                Some(service)
            }
            None => None,
        }
    }

    /// The leaf that serves its sessions of a service; none where no statement of its program opens the service.
    pub fn server(&self, service: &Name) -> Option<LeafNo>
        ensures { result ≡ served_by self.now service.now }
    {
        served();
        let interfaces = self.table.scenario().interfaces();
        let _entries = interfaces.entries();
        match interfaces.place(service.as_bytes()) {
            Some(number) => self.table.server(self.leaf, number as u32),
            None => None,
        }
    }
}
