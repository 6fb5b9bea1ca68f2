//! Requests and replies.
use fixed_list::FixedList;

/// The function that reads holding registers (section 6.3).
pub const READ_REGISTERS: u8 = 3;

/// The function that writes a block of registers (section 6.12).
pub const WRITE_REGISTERS: u8 = 16;

/// What an exception reply adds to the function of its request (section 7).
pub const EXCEPTION_BIT: u8 = 128;

/// The most registers that one read may ask for (section 6.3).
pub const MAX_READ: u16 = 125;

/// The most registers that one write may hold (section 6.12).
pub const MAX_WRITE: u16 = 123;

/// The most registers that one request or reply holds: those that a read may ask for.
pub const MAX_REGISTERS: usize = MAX_READ as usize;

/// The most bytes of one protocol data unit, function byte and all (section 4.1).
pub const MAX_PDU: usize = 253;

const _: () = prove!(READ_REGISTERS == 3 && WRITE_REGISTERS == 16 && EXCEPTION_BIT == 128);

const _: () = prove!(MAX_READ == 125 && MAX_WRITE == 123 && MAX_PDU == 253);

/// The bytes of one protocol data unit, function byte and all.
pub type Pdu = FixedList<u8, MAX_PDU>;

/// The registers of one read or write.
pub type Regs = FixedList<u16, MAX_REGISTERS>;

/// What a client asks of a device.
#[derive(Debug, Clone, PartialEq, Eq, Drop)]
pub enum Request {
    /// Read Holding Registers, function 03 (section 6.3).
    ReadRegs {
        /// The address of the first register.
        start: u16,
        /// How many registers, 1 to 125.
        count: u16,
    },
    /// Write Multiple Registers, function 16 (section 6.12).
    WriteRegs {
        /// The address of the first register.
        start: u16,
        /// What the registers from there on are set to, 1 to 123 values.
        values: Regs,
    },
}

/// What a device answers.
#[derive(Debug, Clone, PartialEq, Eq, Drop)]
pub enum Reply {
    /// The registers that were read, 1 to 125 of them, function 03 (section 6.3).
    Regs(Regs),
    /// Registers were written, function 16 (section 6.12).
    Wrote {
        /// The address of the first register.
        start: u16,
        /// How many registers, 1 to 123.
        count: u16,
    },
    /// A request was refused (section 7).
    Exception {
        /// The function of the request, 3 or 16.
        function: u8,
        /// Why. The standard names 1 illegal function, 2 illegal data address, 3 illegal data value, 4 server
        /// device failure, 5 acknowledge, 6 server device busy, 8 memory parity error, 10 gateway path
        /// unavailable and 11 gateway target device failed to respond; any other code is taken too.
        code: u8,
    },
}
