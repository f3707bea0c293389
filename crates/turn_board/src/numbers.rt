//! The numbers of a pass's callers, in a chain that is cut and joined without memory.
ghost use Rattle.std.specs.Prelude.{◌≡◌, ◌≢◌, ◌≤◌, [], ◌∷◌, ◌++◌, take, drop, length, reverse, IfOk, IfNone, IfSome};
ghost use Rattle.turn_board.specs.Rising.{rising_with, rising_union, itself, numbers_from, starts_within};

use std::alloc::{AllocError, Global};
use std::marker::Model;
use std::mem;

#[cycle(chain)]
enum Link {
    End,
    More(u32, Box<Chain>),
}

/// Numbers in rising order, each in a box that moves with it from chain to chain.
#[cycle(chain)]
pub struct Chain {
    link: Link,
}

impl Model for Chain {
    ghost use Rattle.std.specs.Prelude.{ℕ, List, length};

    ghost Value = { List ℕ };

    ghost use Rattle.turn_board.specs.Numbers.{chain_numbers};

    ghost view = { λ c. chain_numbers c.link };

    ghost size = { length };

    ghost use Rattle.std.proofs.Common.{arith, length-append};

    ghost size_decreases = { λ a h. Prim.grind (arith, length-append) };
}

impl Chain {
    fn empty() -> Chain
        ensures { result ≡ [] }
    {
        Chain { link: Link::End }
    }

    /// So many numbers, from 0 on.
    #[tactic(auto, using(crate::proofs::Chains::one_before))]
    pub fn below(alloc: Global, count: u32) -> Result<Chain, AllocError>
        ensures { IfOk result (λ c. c ≡ numbers_from 0 count) }
    {
        let mut chain = Chain::empty();
        let mut number = count;
        while number > 0 {
            number -= 1;
            chain = Chain {
                link: Link::More(number, Box::new(alloc, chain)?),
            };
        }
        Ok(chain)
    }

    // The first number with its box, in which the others are.
    fn split_first(self) -> Option<(u32, Box<Chain>)>
        ensures none { IfNone result (self ≡ []) }
        ensures some { IfSome result (λ r. self ≡ r.0 ∷ r.1.value) }
    {
        let Chain { link } = self;
        match link {
            Link::End => None,
            Link::More(number, rest) => Some((number, rest)),
        }
    }

    // One more number before the others, in a box of which nothing is kept.
    fn with_first(self, number: u32, mut link: Box<Chain>) -> Chain
        ensures { result ≡ number ∷ self }
    {
        *link = self;
        Chain {
            link: Link::More(number, link),
        }
    }

    // The numbers of `front`, last first, before the others.
    #[tactic(auto, using(crate::proofs::Chains::turned_over))]
    fn after(self, front: Chain) -> Chain
        ensures { result ≡ reverse front ++ self }
    {
        let mut left = front;
        let mut chain = self;
        'links: while let Some((number, mut link)) = left.split_first() {
            left = mem::replace(&mut *link, Chain::empty());
            chain = chain.with_first(number, link);
        }
        chain
    }

    /// The first number.
    pub fn first(&self) -> u32
        requires { self.now ≢ [] }
        ensures { (rest : _) × (self.now ≡ result ∷ rest) }
    {
        match &self.link {
            Link::End => unreachable!(),
            Link::More(number, _) => *number,
        }
    }

    /// Keeps the first numbers, so many, and gives the others.
    #[tactic(auto, using(crate::proofs::Chains::cut_more, crate::proofs::Chains::reverse_first))]
    pub fn cut(&mut self, keep: u32) -> Chain
        requires { keep ≤ length self.old }
        ensures first { self.new ≡ take keep self.old }
        ensures others { result ≡ drop keep self.old }
    {
        let mut front = Chain::empty();
        let mut back = mem::replace(self, Chain::empty());
        for _ in 0..keep {
            let Some((number, mut link)) = back.split_first() else {
                unreachable!()
            };
            back = mem::replace(&mut *link, Chain::empty());
            front = front.with_first(number, link);
        }
        *self = Chain::empty().after(front);
        back
    }

    fn starts_within(&self, number: u32) -> bool
        ensures { result ≡ starts_within number self.now }
    {
        match &self.link {
            Link::End => false,
            Link::More(first, _) => *first <= number,
        }
    }

    // Puts a number in its place, in a box of which nothing is kept.
    #[tactic(auto, using(crate::proofs::Chains::placed_later, crate::proofs::Chains::placed_first, crate::proofs::Chains::turned_over))]
    fn place(&mut self, number: u32, link: Box<Chain>)
        ensures { self.new ≡ rising_with itself number self.old }
    {
        let mut front = Chain::empty();
        let mut back = mem::replace(self, Chain::empty());
        'smaller: while back.starts_within(number) {
            let Some((first, mut place)) = back.split_first() else {
                unreachable!()
            };
            back = mem::replace(&mut *place, Chain::empty());
            front = front.with_first(first, place);
        }
        *self = back.with_first(number, link).after(front);
    }

    /// Takes in the numbers of another chain.
    pub fn merge(&mut self, other: Chain)
        ensures { self.new ≡ rising_union itself self.old other }
    {
        let mut left = other;
        'links: while let Some((number, mut link)) = left.split_first() {
            left = mem::replace(&mut *link, Chain::empty());
            self.place(number, link);
        }
    }
}

impl Drop for Chain {
    fn drop(self) {
        let mut left = self;
        'links: while let Some((_, link)) = left.split_first() {
            left = Box::into_inner(link);
        }
    }
}
