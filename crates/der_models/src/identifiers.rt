//! Identifiers of the models that are used, each as the first register of the model has it.

/// DER AC Measurement: what the inverter measures.
pub const AC_MEASUREMENT: u16 = 701;

/// DER Capacity: the inverter's ratings.
pub const CAPACITY: u16 = 702;

/// DER Enter Service: whether the inverter may run.
pub const ENTER_SERVICE: u16 = 703;

/// DER AC Controls: the limit of active power among others.
pub const AC_CONTROLS: u16 = 704;
