use arrayvec::ArrayString;
use std::marker::Model;

/// Where an inverter is reached over Modbus TCP, and where its register map has the limit.
#[derive(Clone, Debug, Drop)]
pub struct Port {
    /// The host's name or address.
    pub host: ArrayString<64>,
    /// The TCP port.
    pub port: u16,
    /// The unit number, by which a gateway tells devices behind one address apart.
    pub unit: u8,
    /// The address of the register that identifies model 704, at most 65,514.
    pub base: u16,
}

impl Model for Port {
    ghost use Rattle.plant_book.specs.Port.{PortRecord};

    ghost Value = { PortRecord };

    ghost view = { λ p. record { host = p.host.bytes; port = p.port; unit = p.unit; base = p.base } };
}
