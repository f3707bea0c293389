//! The places of an order.
ghost use Rattle.std.specs.Prelude.{◌≡◌, ◌<◌, ℕ, IfOk, slice_index_or, vec_len};

use crate::baton::Baton;
use std::alloc::{AllocError, Global};
use std::sync::{Arc, Condvar, Mutex, Wait};

/// The baton, and for each place the bell that its caller sleeps on.
#[derive(Drop)]
pub(crate) struct Order {
    baton: Mutex<Baton>,
    bells: Vec<Condvar>,
}

/// A caller's place in an order.
///
/// Of the callers in an order one runs at a time, from its call or its rest until it asks for the next or leaves. Then
/// the seed's numbers say who is next, which may be the same caller, and all wait for that one, even if its thread has
/// not come so far. So the order does not depend on how fast threads are.
///
/// A place whose caller neither calls, rests nor leaves stops all others for ever. So each place needs a caller, on a
/// thread of its own, that leaves when its work is done; or it leaves itself. A thread whose caller has not left waits
/// for the others by rests alone: it joins none of them, and holds no lock over a call that another may want. What a
/// thread does before its first call, and after it has left, is in no order.
#[derive(Drop)]
pub struct OrderPlace {
    order: Arc<Order>,
    number: u32,
    ghost belled: { number < vec_len order.value.bells },
}

/// The places of an order for so many callers, numbered from 0 on. The seed fixes the order.
pub fn order_places(alloc: Global, count: u32, seed: u64) -> Result<Vec<OrderPlace>, AllocError>
    requires { 0 < count }
    ensures count { IfOk result (λ places. vec_len places ≡ count) }
    ensures numbers { IfOk result (λ places. (k : ℕ) (d : _) → k < count
        → (slice_index_or places.items k d).number ≡ k) }
{
    let order = Arc::new(alloc, Order::new(alloc, count, seed)?)?;
    let mut places = Vec::with_capacity(alloc, count as usize)?;
    for number in 0..count {
        places.push_reserved(OrderPlace::of(&order, number)?);
    }
    Ok(places)
}

impl Order {
    fn new(alloc: Global, count: u32, seed: u64) -> Result<Order, AllocError>
        requires { 0 < count }
        ensures { IfOk result (λ order. vec_len order.bells ≡ count) }
    {
        let places: Vec<u32> = (0..count).collect(alloc)?;
        let mut bells = Vec::with_capacity(alloc, count as usize)?;
        for _ in 0..count {
            bells.push_reserved(Condvar::new());
        }
        Ok(Order {
            baton: Mutex::new(Baton::new(seed, places)),
            bells,
        })
    }

    // Wakes the caller whose the baton is, if it sleeps.
    fn ring(&self, baton: &Baton) {
        if let Some(place) = baton.holder() {
            if let Some(bell) = self.bells.get(place as usize) {
                bell.notify_one();
            }
        }
    }
}

impl OrderPlace {
    fn of(order: &Arc<Order>, number: u32) -> Result<OrderPlace, AllocError>
        requires { number < vec_len order.now.value.bells }
        ensures { IfOk result (λ place. place.number ≡ number) }
    {
        Ok(OrderPlace {
            order: Arc::try_clone(order)?,
            number,
        })
    }

    /// Passes the baton on, if the caller has it, and sleeps until it is this place's, to take it.
    pub(crate) fn take_baton<R: Wait>(&self, rt: &R) {
        let order = &*self.order;
        let place = self.number;
        let mut baton = order.baton.lock(rt);
        baton.pass_on(place);
        order.ring(&baton);
        let bell = &order.bells[place as usize];
        let mut baton = bell.wait_while(rt, baton, |baton| !baton.is_with(place));
        baton.take();
    }

    /// Sleeps until the baton is this place's, if it is not, and leaves the order for ever.
    pub fn leave<R: Wait>(self, rt: &R) {
        let order = &*self.order;
        let place = self.number;
        let bell = &order.bells[place as usize];
        let mut baton = bell.wait_while(rt, order.baton.lock(rt), |baton| !baton.is_with(place));
        baton.leave(place);
        order.ring(&baton);
    }
}
