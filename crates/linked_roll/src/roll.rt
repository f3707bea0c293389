//! The roll.
ghost use Rattle.std.specs.Prelude.{◌≡◌, ◌+◌, ◌≤◌, [], ◌∷◌, ◌++◌, None, Some, IsSome, IsOk, OnOk, length, option_copied};
ghost use Rattle.linked_roll.specs.Members.{member, front, item_by_ticket, items, members_without, TicketsDiffer};

use crate::items::Items;
use crate::links::{Links, Node};
use crate::steps::Steps;
use crate::ticket::Ticket;
use std::alloc::{AllocError, Global};
use std::marker::Model;
use std::sync::ledger::Ledger;

/// Items in the order of their pushes, each under a ticket by which it is taken out. Contracts see the list of
/// the items with their tickets, and a number spare: so many pushes need no memory.
#[derive(Drop)]
pub struct Roll<T> {
    links: Links<T>,
}

impl<T> Model for Roll<T> {
    ghost use Rattle.linked_roll.specs.Members.{RollState};

    ghost Value = { RollState T };

    ghost use Rattle.linked_roll.specs.Links.{roll_state, IsList};

    ghost view = { λ r. roll_state r.links };

    ghost invariant = { λ r. IsList r.links (roll_state r.links).members };
}

impl<T> Roll<T> {
    /// An empty roll, which takes no memory.
    pub fn new(alloc: Global) -> Roll<T>
        ensures members { result.members ≡ [] }
        ensures spare { result.spare ≡ 0 }
    {
        Roll {
            links: Links::new(alloc),
        }
    }

    /// Makes room for so many more items. The only error is want of memory, and where there is room already,
    /// none is wanted.
    pub fn reserve(&mut self, more: usize) -> Result<(), AllocError>
        ensures members { self.new.members ≡ self.old.members }
        ensures room { OnOk result (more ≤ self.new.spare) }
        ensures spare { self.old.spare ≤ self.new.spare }
        ensures there { more ≤ self.old.spare → IsOk result }
    {
        self.links.nodes.reserve(more)
    }

    /// Puts an item last. At most two nodes are visited.
    pub fn push_back<L: Ledger>(&mut self, item: T, steps: &mut Steps<L>) -> Ticket
        requires { 1 ≤ self.old.spare }
        ensures members { self.new.members ≡ self.old.members ++ member result item ∷ [] }
        ensures fresh { item_by_ticket self.old.members result ≡ None }
        ensures spare { self.new.spare + 1 ≡ self.old.spare }
        ensures visits { steps.new ≤ steps.old + 2 }
    {
        let previous = self.links.last;
        let node = Node {
            item,
            previous,
            next: None,
        };
        let ticket = self.links.put(node, steps);
        self.links.set_next(previous, Some(ticket), steps);
        self.links.last = Some(ticket);
        ticket
    }

    /// Takes the item of a ticket out. At most three nodes are visited.
    pub fn remove<L: Ledger>(&mut self, ticket: Ticket, steps: &mut Steps<L>) -> T
        requires { IsSome (item_by_ticket self.old.members ticket) }
        ensures item { item_by_ticket self.old.members ticket ≡ Some result }
        ensures members { self.new.members ≡ members_without ticket self.old.members }
        ensures spare { self.new.spare ≡ self.old.spare + 1 }
        ensures visits { steps.new ≤ steps.old + 3 }
    {
        let Node {
            item,
            previous,
            next,
        } = self.links.take(ticket, steps);
        self.links.set_next(previous, next, steps);
        self.links.set_previous(next, previous, steps);
        item
    }

    /// How many items it has.
    pub fn len(&self) -> usize
        ensures { result ≡ length self.now.members }
    {
        self.links.nodes.len()
    }

    /// The first item.
    pub fn front(&self) -> Option<&T>
        ensures { option_copied result ≡ front self.now.members }
    {
        Some(&self.links.nodes.get(self.links.first?.key)?.item)
    }

    /// The item of a ticket.
    pub fn get(&self, ticket: Ticket) -> Option<&T>
        ensures { option_copied result ≡ item_by_ticket self.now.members ticket }
    {
        Some(&self.links.nodes.get(ticket.key)?.item)
    }

    /// The items in order.
    pub fn items(&self) -> Items<'_, T>
        ensures { result ≡ items self.now.members }
    {
        Items {
            links: &self.links,
            next: self.links.first,
            left: self.links.nodes.len(),
        }
    }

    /// A law: no two items have one ticket.
    pub fn tickets_differ(&self)
        ensures { TicketsDiffer self.now.members }
    {
        let _first = self.links.first;
    }
}
