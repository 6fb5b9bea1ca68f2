use commissioning::CommissionFault;
use mbap_frames::FrameFault;

/// Why a command over links was refused.
#[derive(Clone, Copy, Debug, PartialEq, Eq)]
pub enum LiveFault {
    /// The site has no inverter of this number: only so many.
    NoSuchInverter(u32),
    /// The host couldn't be dialed.
    Dial,
    /// A request couldn't be sent whole.
    Send,
    /// A receive failed.
    Recv,
    /// No reply came in time.
    Quiet,
    /// The inverter closed the link.
    Closed,
    /// What came can't be read as frames.
    BadFrame(FrameFault),
    /// The inverter isn't as the site file says, or answered otherwise than it was to.
    Commission(CommissionFault),
}
