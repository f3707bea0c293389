//! The nodes of a roll and its two ends. In `push_back` and `remove` a node is reached by the calls here that
//! take the counter of visits, and each of them counts one.
ghost use Rattle.std.specs.Prelude.{◌≡◌, ◌+◌, ◌≤◌, [], Some, None};
ghost use Rattle.slab.specs.Slab.{get, slab_len, HasRoomFor, Updates};
ghost use Rattle.linked_roll.specs.Links.{net, HasNode, SetsNext, SetsPrevious};

use crate::steps::Steps;
use crate::ticket::Ticket;
use slab::Slab;
use std::alloc::Global;
use std::sync::ledger::Ledger;

/// An item and the tickets of its neighbours.
#[derive(Drop)]
pub(crate) struct Node<T> {
    pub(crate) item: T,
    pub(crate) previous: Option<Ticket>,
    pub(crate) next: Option<Ticket>,
}

/// Nodes under their tickets, and the tickets of the first and the last.
#[derive(Drop)]
pub(crate) struct Links<T> {
    pub(crate) nodes: Slab<Node<T>>,
    pub(crate) first: Option<Ticket>,
    pub(crate) last: Option<Ticket>,
}

impl<T> Links<T> {
    /// No node.
    pub(crate) fn new(alloc: Global) -> Links<T>
        ensures nodes { result.nodes.slots ≡ [] }
        ensures capacity { result.nodes.capacity ≡ 0 }
        ensures first { result.first ≡ None }
        ensures last { result.last ≡ None }
    {
        Links {
            nodes: Slab::new(alloc),
            first: None,
            last: None,
        }
    }

    /// Puts a node in and gives its ticket.
    pub(crate) fn put<L: Ledger>(&mut self, node: Node<T>, steps: &mut Steps<L>) -> Ticket
        requires { HasRoomFor self.old.nodes 1 }
        ensures fresh { get self.old.nodes result.key ≡ None }
        ensures nodes { Updates self.old.nodes self.new.nodes result.key (Some node) }
        ensures count { slab_len self.new.nodes ≡ slab_len self.old.nodes + 1 }
        ensures capacity { self.new.nodes.capacity ≡ self.old.nodes.capacity }
        ensures first { self.new.first ≡ self.old.first }
        ensures last { self.new.last ≡ self.old.last }
        ensures visits { steps.new ≡ steps.old + 1 }
    {
        steps.tick();
        let key = self.nodes.insert_reserved(node);
        Ticket { key }
    }

    /// Takes a node out.
    pub(crate) fn take<L: Ledger>(&mut self, ticket: Ticket, steps: &mut Steps<L>) -> Node<T>
        requires { HasNode (net self.old) (Some ticket) }
        ensures node { get self.old.nodes ticket.key ≡ Some result }
        ensures nodes { Updates self.old.nodes self.new.nodes ticket.key None }
        ensures count { slab_len self.new.nodes + 1 ≡ slab_len self.old.nodes }
        ensures capacity { self.new.nodes.capacity ≡ self.old.nodes.capacity }
        ensures first { self.new.first ≡ self.old.first }
        ensures last { self.new.last ≡ self.old.last }
        ensures visits { steps.new ≡ steps.old + 1 }
    {
        steps.tick();
        self.nodes.remove(ticket.key)
    }

    /// Lets `next` follow the node `at`. `None` is the head: what follows it is the first node.
    pub(crate) fn set_next<L: Ledger>(
        &mut self,
        at: Option<Ticket>,
        next: Option<Ticket>,
        steps: &mut Steps<L>,
    )
        requires { HasNode (net self.old) at }
        ensures link { SetsNext (net self.old) (net self.new) at next }
        ensures count { slab_len self.new.nodes ≡ slab_len self.old.nodes }
        ensures capacity { self.new.nodes.capacity ≡ self.old.nodes.capacity }
        ensures visits { steps.new ≤ steps.old + 1 }
    {
        match at {
            Some(ticket) => {
                steps.tick();
                self.nodes[ticket.key].next = next;
            }
            None => self.first = next,
        }
    }

    /// Lets `previous` stand before the node `at`. `None` is the head: what stands before it is the last node.
    pub(crate) fn set_previous<L: Ledger>(
        &mut self,
        at: Option<Ticket>,
        previous: Option<Ticket>,
        steps: &mut Steps<L>,
    )
        requires { HasNode (net self.old) at }
        ensures link { SetsPrevious (net self.old) (net self.new) at previous }
        ensures count { slab_len self.new.nodes ≡ slab_len self.old.nodes }
        ensures capacity { self.new.nodes.capacity ≡ self.old.nodes.capacity }
        ensures visits { steps.new ≤ steps.old + 1 }
    {
        match at {
            Some(ticket) => {
                steps.tick();
                self.nodes[ticket.key].previous = previous;
            }
            None => self.last = previous,
        }
    }
}
