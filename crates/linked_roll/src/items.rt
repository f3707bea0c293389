//! The items of a roll in order.
ghost use Rattle.std.specs.Iterator.{YieldsFirstRef, item_count};

use crate::links::Links;
use crate::ticket::Ticket;
use std::marker::Model;

/// The items of a roll, seen as the list of those that are left.
#[derive(Drop)]
pub struct Items<'a, T> {
    pub(crate) links: &'a Links<T>,
    // The node of the first item that is left.
    pub(crate) next: Option<Ticket>,
    pub(crate) left: usize,
}

impl<'a, T> Model for Items<'a, T> {
    ghost use Rattle.std.specs.Prelude.{◌≡◌, List, length};
    ghost use Rattle.linked_roll.specs.Members.{items};
    ghost use Rattle.linked_roll.specs.Links.{net, members_from};

    ghost Value = { List T };

    ghost view = { λ it. items (members_from (net it.links.now) it.left it.next) };

    ghost invariant = { λ it. length (members_from (net it.links.now) it.left it.next) ≡ it.left };
}

impl<'a, T> Iterator for Items<'a, T> {
    type Item = &'a T;

    ghost next_gives = { YieldsFirstRef (λ rest. rest) };

    ghost remaining = { item_count (λ rest. rest) };

    fn next(&mut self) -> Option<&'a T> {
        let left = self.left.checked_sub(1)?;
        let node = self.links.nodes.get(self.next?.key)?;
        self.left = left;
        self.next = node.next;
        Some(&node.item)
    }

    fn size_hint(&self) -> (usize, Option<usize>) {
        (self.left, Some(self.left))
    }
}
