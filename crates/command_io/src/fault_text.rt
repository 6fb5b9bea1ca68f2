//! Faults as they stand on standard error: the name of the variant in lower-case letters and its values, one
//! space between two. A nested fault stands behind what holds it.
use crate::live_fault::LiveFault;
use commissioning::CommissionFault;
use limiter_num::RatingFault;
use site_config::{Key, SiteFault};
use std::fmt;
use std::fmt::Formatter;

/// The key without the dash that the site file has in it.
fn key_name(key: Key) -> &'static str {
    match key {
        Key::PerMille => "permille",
        Key::Cap
        | Key::Send
        | Key::Delay
        | Key::Timer
        | Key::Slack
        | Key::Renew
        | Key::Pause
        | Key::Wait
        | Key::Book
        | Key::Policy
        | Key::Inverter
        | Key::Host
        | Key::Port
        | Key::Unit
        | Key::Base
        | Key::Wmax
        | Key::Wsf
        | Key::Psf
        | Key::Floor => key.name(),
    }
}

/// Writes the name of a fault of a key and the key, and the inverter whose table it is in, if it is in one.
fn write_key<W: fmt::Write>(
    f: &mut Formatter<W>,
    name: &str,
    key: Key,
    inverter: Option<u32>,
) -> fmt::Result {
    let key = key_name(key);
    match inverter {
        Some(inverter) => write!(f, "{name} {key} {inverter}"),
        None => write!(f, "{name} {key}"),
    }
}

fn write_rating_fault<W: fmt::Write>(f: &mut Formatter<W>, fault: RatingFault) -> fmt::Result {
    match fault {
        RatingFault::NotImplemented(point) => {
            let point = point.name();
            write!(f, "notimplemented {point}")
        }
        RatingFault::ScaleOut(point, scale) => {
            let point = point.name();
            write!(f, "scaleout {point} {scale}")
        }
        RatingFault::NoResolution => f.write_str("noresolution"),
        RatingFault::TooLarge(rated) => write!(f, "toolarge {rated}"),
    }
}

/// Writes a fault of a site file.
pub fn write_site_fault<W: fmt::Write>(f: &mut Formatter<W>, fault: SiteFault) -> fmt::Result {
    match fault {
        SiteFault::NotToml => f.write_str("nottoml"),
        SiteFault::Missing { key, inverter } => write_key(f, "missing", key, inverter),
        SiteFault::WrongKind { key, inverter } => write_key(f, "wrongkind", key, inverter),
        SiteFault::OutOfRange {
            key,
            inverter,
            value,
        } => {
            write_key(f, "outofrange", key, inverter)?;
            write!(f, " {value}")
        }
        SiteFault::BadText { key, inverter } => write_key(f, "badtext", key, inverter),
        SiteFault::NoInverter => f.write_str("noinverter"),
        SiteFault::TooManyInverters(count) => write!(f, "toomanyinverters {count}"),
        SiteFault::Unrated { inverter, cause } => {
            write!(f, "unrated {inverter} ")?;
            write_rating_fault(f, cause)
        }
        SiteFault::FloorOut { inverter, full } => write!(f, "floorout {inverter} {full}"),
        SiteFault::RenewTooShort { least } => write!(f, "renewtooshort {least}"),
        SiteFault::FloorsOverCap(floors) => write!(f, "floorsovercap {floors}"),
    }
}

fn write_commission_fault<W: fmt::Write>(
    f: &mut Formatter<W>,
    fault: CommissionFault,
) -> fmt::Result {
    match fault {
        CommissionFault::Walk(walk) => write!(f, "walk {walk}"),
        CommissionFault::Unfit {
            point,
            wanted,
            found,
        } => {
            let point = point.name();
            write!(f, "unfit {point} {wanted} {found}")
        }
        CommissionFault::Exception(code) => write!(f, "exception {code}"),
        CommissionFault::WrongReply => f.write_str("wrongreply"),
    }
}

/// Writes why a command over links was refused.
pub fn write_live_fault<W: fmt::Write>(f: &mut Formatter<W>, fault: LiveFault) -> fmt::Result {
    match fault {
        LiveFault::NoSuchInverter(count) => write!(f, "nosuchinverter {count}"),
        LiveFault::Dial => f.write_str("dial"),
        LiveFault::Send => f.write_str("send"),
        LiveFault::Recv => f.write_str("recv"),
        LiveFault::Quiet => f.write_str("quiet"),
        LiveFault::Closed => f.write_str("closed"),
        LiveFault::BadFrame(frame) => write!(f, "badframe {frame}"),
        LiveFault::Commission(fault) => {
            f.write_str("commission ")?;
            write_commission_fault(f, fault)
        }
    }
}
