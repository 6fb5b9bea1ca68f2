//! The rules of the ledger, which a reader has to believe, and a plain slow program that follows them.
//!
//! A book is a site, a start and a list of calls with their replies. `specs/` says what each reply has to be,
//! from the whole list; `answer` and `reserved_plain` compute it so. A life may be kept in several books, of
//! which each begins with a carry: what the books before it leave.
#![tactic(auto)]

mod before;
mod book;
mod call;
mod caps;
mod carry;
mod laws;
mod live;
mod policy;
mod port;
mod replies;
mod requests;
mod reserved;
mod site;

pub use book::{Book, ENTRY_BYTES_MAX, Entry};
pub use call::{Call, LIVE_MAX, MOMENT_MAX, REQUESTS_MAX, Read, Reply, WISH_MAX, Write};
pub use caps::{cap_plain, ceiling_plain};
pub use carry::{CALLS_MAX, CapMark, Carry, UnitCarry};
pub use laws::{
    behaviours_exist, caps_are_told, claims_are_feasible, histories_are_safe, lives_are_joined,
    no_write_could_go_sooner, reservations_live_on, totals_come_back_under_the_cap,
    what_is_held_is_reserved,
};
pub use port::Port;
pub use replies::{answer, goal_plain, is_stopped, reserved_plain, total_plain};
pub use share_policy::{Claim, Policy};
pub use site::{CAP_MAX, FloorOut, INVERTERS_MAX, ROOM_MAX, Site, Unit};
