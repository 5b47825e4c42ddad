ghost use Rattle.std.specs.Prelude.{◌≡◌, ◌==◌, ◌&&◌, map};
ghost use Rattle.std.specs.List.{find, list_any};
ghost use Rattle.std.specs.Option.{option_map};
ghost use Rattle.path_resolver.specs.Shots.{view_gateway, view_held, view_listed};

use crate::shot::{Gateway, Held, Shot};
use biop_object::Module;
use dsi_dii::ModuleLine;
use std::sync::Arc;

/// A module that a held DII lists.
#[derive(Drop)]
pub struct Listed<'a> {
    /// That DII's identification, 1 to 32,767.
    pub identification: u16,
    /// The module's line in that DII.
    pub line: ModuleLine,
    /// The module, once it is whole.
    pub module: Option<&'a Arc<Module>>,
}

/// What paths are answered on: a shot or a receiver. No call takes memory. Identifications are 0 to
/// 32,767.
pub trait Holding {
    ghost use Rattle.path_resolver.specs.Resolving.{Held as HeldState};

    // What an answer depends on.
    ghost state: { Self → HeldState };

    /// The held generation's label, if a DII is held.
    fn label(&self) -> Option<u64>
        ensures { result ≡ (state self.now).label };

    /// The gateway of the last DSI that had one.
    fn gateway(&self) -> Option<&Gateway>
        ensures { option_map (λ g. view_gateway g.now) result ≡ (state self.now).gateway };

    /// Whether a DII of this identification is held.
    fn is_held(&self, identification: u16) -> bool
        ensures { result ≡ list_any (λ i. i == identification) (state self.now).held };

    /// The module by the first held DII that lists it.
    fn listed(&self, id: u16) -> Option<Listed<'_>>
        ensures { option_map view_listed result
            ≡ find (λ h. h.line.id == id) (state self.now).table };

    /// The module by the held DII of this identification.
    fn delivered(&self, identification: u16, id: u16) -> Option<Listed<'_>>
        ensures { option_map view_listed result
            ≡ find (λ h. (h.identification == identification) && (h.line.id == id))
            (state self.now).table };
}

fn lent(held: &Held) -> Listed<'_>
    ensures { view_listed result ≡ view_held held.now }
{
    Listed {
        identification: held.identification,
        line: held.line,
        module: held.module.as_ref(),
    }
}

fn held_in(table: &[Held], id: u16) -> Option<Listed<'_>>
    ensures { option_map view_listed result
        ≡ find (λ h. h.line.id == id) (map view_held table.now) }
{
    for held in table {
        if held.line.id == id {
            return Some(lent(held));
        }
    }
    None
}

fn delivered_in(table: &[Held], identification: u16, id: u16) -> Option<Listed<'_>>
    ensures { option_map view_listed result
        ≡ find (λ h. (h.identification == identification) && (h.line.id == id))
        (map view_held table.now) }
{
    for held in table {
        if held.identification == identification && held.line.id == id {
            return Some(lent(held));
        }
    }
    None
}

impl Holding for Shot {
    ghost use Rattle.path_resolver.specs.Shots.{held_of};

    ghost state = { held_of };

    fn label(&self) -> Option<u64> {
        self.label
    }

    fn gateway(&self) -> Option<&Gateway> {
        self.gateway.as_ref()
    }

    fn is_held(&self, identification: u16) -> bool {
        self.held.iter().any(|i| *i == identification)
    }

    fn listed(&self, id: u16) -> Option<Listed<'_>> {
        held_in(&self.table, id)
    }

    fn delivered(&self, identification: u16, id: u16) -> Option<Listed<'_>> {
        delivered_in(&self.table, identification, id)
    }
}
