//! Why an inverter isn't commissioned.
use limiter_num::Point;
use model_discovery::WalkFault;

/// What keeps an inverter from being commissioned.
#[derive(Clone, Copy, Debug, PartialEq, Eq)]
pub enum CommissionFault {
    /// Its register map has no chain of models.
    Walk(WalkFault),
    /// A point isn't what the site file has, or what was written: the first that isn't.
    Unfit {
        point: Point,
        wanted: i64,
        found: i64,
    },
    /// It refused a request that isn't one of the walk, with this exception code.
    Exception(u8),
    /// What came isn't a reply to the request, or an eighth frame of another transaction number came.
    WrongReply,
}
