//! Any two images of a store's disks stand for what is kept of the run, at every moment of it and once it has ended.
#![tactic(auto)]

mod law;

pub use law::{
    a_store_keeps_the_events_at_every_moment, a_store_keeps_the_record_at_every_moment,
    images_of_a_store_stand_for_the_events, images_of_a_store_stand_for_the_record,
};
