//! Iteration over the interfaces of a collection.
ghost use Rattle.std.specs.Prelude.{◌≡◌, List, drop};
ghost use Rattle.std.specs.Iterator.{YieldsFirstBy, item_count};
ghost use Rattle.wac_types_shapes.specs.declared.shapes.component.Interface.{Interface};
ghost use Rattle.wac_types_shapes.specs.declared.shapes.component.InterfaceId.{InterfaceId};
ghost use Rattle.wac_types_collection.specs.collection.Interfaces.{numbered};

use crate::collection::collection::Types;
use crate::collection::shared::Items;
use std::marker::Model;
use wac_types_shapes::{Interface, InterfaceId};

/// An iterator over the interfaces of a collection with their ids, in the order in which they were added.
#[derive(Debug, Drop)]
pub struct Interfaces<'a> {
    held: &'a Items<Interface>,
    position: usize,
}

impl<'a> Model for Interfaces<'a> {
    ghost Value = { List (InterfaceId × Interface) };

    ghost view = { λ s. numbered s.position (drop s.position s.held.now) };
}

impl<'a> Iterator for Interfaces<'a> {
    type Item = (InterfaceId, &'a Interface);

    ghost next_gives = { YieldsFirstBy (λ x. (x.0, x.1.now)) (λ s. s) };

    ghost remaining = { item_count (λ s. s) };

    #[tactic(auto, using(crate::proofs::lemmas::collection::Numbered::numbered_at))]
    fn next(&mut self) -> Option<(InterfaceId, &'a Interface)> {
        if self.position >= self.held.len() {
            return None;
        }
        let id = InterfaceId(self.position);
        let interface = self.held.item(self.position);
        self.position += 1;
        Some((id, interface))
    }
}

impl Types {
    /// Returns an iterator over the interfaces with their ids, in the order in which they were added.
    pub fn interfaces(&self) -> Interfaces<'_>
        ensures { result ≡ numbered 0 self.now.interfaces }
    {
        Interfaces {
            held: self.all_interfaces(),
            position: 0,
        }
    }
}
