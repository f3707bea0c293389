//! Calls of a roll, each with a counter of its own. The bound of visits is a claim of the roll.
ghost use Rattle.std.specs.Prelude.{◌≡◌, ◌+◌, ◌<◌, ◌≤◌, ◌++◌, [], ◌∷◌, None, Some, IsSome};
ghost use Rattle.linked_roll.specs.Members.{member, item_by_ticket, members_without};

use linked_roll::{Roll, Steps, Ticket};
use std::marker::Brand;
use std::sync::ledger::{Blank, Ledger};

/// `Roll::push_back`.
pub(crate) fn push<T>(roll: &mut Roll<T>, item: T) -> Ticket
    requires { 1 ≤ roll.old.spare }
    ensures members { roll.new.members ≡ roll.old.members ++ member result item ∷ [] }
    ensures fresh { item_by_ticket roll.old.members result ≡ None }
    ensures spare { roll.new.spare + 1 ≡ roll.old.spare }
{
    push_counted::<T, Brand>(roll, item, Blank::new(1))
}

fn push_counted<T, L: Ledger>(roll: &mut Roll<T>, item: T, blank: Blank) -> Ticket
    requires name { blank.name ≡ L.name }
    requires parts { blank.parts ≡ L.parts }
    requires some { 0 < blank.parts }
    requires room { 1 ≤ roll.old.spare }
    ensures members { roll.new.members ≡ roll.old.members ++ member result item ∷ [] }
    ensures fresh { item_by_ticket roll.old.members result ≡ None }
    ensures spare { roll.new.spare + 1 ≡ roll.old.spare }
{
    let mut steps = Steps::<L>::new(blank);
    roll.push_back(item, &mut steps)
}

/// `Roll::remove`.
pub(crate) fn remove<T>(roll: &mut Roll<T>, ticket: Ticket) -> T
    requires { IsSome (item_by_ticket roll.old.members ticket) }
    ensures item { item_by_ticket roll.old.members ticket ≡ Some result }
    ensures members { roll.new.members ≡ members_without ticket roll.old.members }
{
    remove_counted::<T, Brand>(roll, ticket, Blank::new(1))
}

fn remove_counted<T, L: Ledger>(roll: &mut Roll<T>, ticket: Ticket, blank: Blank) -> T
    requires name { blank.name ≡ L.name }
    requires parts { blank.parts ≡ L.parts }
    requires some { 0 < blank.parts }
    requires there { IsSome (item_by_ticket roll.old.members ticket) }
    ensures item { item_by_ticket roll.old.members ticket ≡ Some result }
    ensures members { roll.new.members ≡ members_without ticket roll.old.members }
{
    let mut steps = Steps::<L>::new(blank);
    roll.remove(ticket, &mut steps)
}
