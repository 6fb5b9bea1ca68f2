//! One turn of a worker: it does what the table of `inverter_worker` puts out, one output after another, with a desk, a
//! dialer and a clock, and hands the table what came of each.
//!
//! `take_turn` makes a turn over any `Line`, and a `Worker` makes its turns over a line of its own. What a turn is stands
//! in `specs/Worker.antt`, what it is to do an output in `specs/Doing.antt`, and what a dial does in `specs/Lines.antt`.
#![tactic(auto)]

mod begin;
mod desk_acts;
mod laws;
mod line;
mod link_acts;
mod perform;
mod turning;
mod worker;

pub use laws::{
    calls_are_entered, each_sight_has_its_frame, failures_are_counted, frames_are_read_in_order,
    links_are_the_jobs, links_are_up_at_each_receive, requests_are_whole_before_a_receive,
    turns_are_runs, waits_end_as_answered,
};
pub use line::{Line, OwnLine};
pub use turning::take_turn;
pub use worker::{Turned, Worker};
