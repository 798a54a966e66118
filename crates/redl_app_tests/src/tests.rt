//! Tests of what no clause says: that calls succeed with ample memory, and their limits and faults, by hand.

mod asked;
mod calls;
mod faults;
mod formats;
mod hostile;
mod limits;
mod sizes;
