//! Why a commissioning came to no good end.
use commissioning::CommissionFault;
use mbap_frames::FrameFault;

/// Why an inverter isn't commissioned, or isn't known to be.
#[derive(Clone, Copy, Debug, PartialEq, Eq)]
pub enum Stop {
    /// A line couldn't be written. Nothing was sent after it.
    WriteFailed,
    /// The link or the inverter refused.
    Refused(Refusal),
}

/// What refused, on the link or at the inverter.
#[derive(Clone, Copy, Debug, PartialEq, Eq)]
pub enum Refusal {
    /// The host couldn't be dialed.
    Dial,
    /// A request couldn't be sent whole.
    Send,
    /// A receive failed.
    Recv,
    /// No reply came in time.
    Quiet,
    /// The inverter closed the link.
    Closed,
    /// What came can't be read as frames.
    BadFrame(FrameFault),
    /// A frame that came isn't the reply that was to come.
    Commission(CommissionFault),
}
