//! Laws of several calls: what one wrote is a file of the next.
//!
//! Definitions go in, statements of outcomes come out. Read `joined_stand_for` first: where `join` wrote one journal of several, `write`
//! with that one comes to the same as `write` with all of them. Each law is a function without code, over the outcome of a call.
#![tactic(auto)]

mod laws;

pub use laws::{
    alike_is_settled, joined_stand_for, left_is_taken_again, order_is_free, resumed_stands_for,
    settled_is_counted, taken_unless_told,
};
