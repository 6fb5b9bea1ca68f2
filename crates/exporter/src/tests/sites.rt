//! The site files of the tests.
use std::alloc::{AllocError, Global};

/// What a site file says of its plant, where the tests differ.
#[derive(Clone, Copy)]
pub struct Plant {
    /// The cap, in mW.
    pub cap: u64,
    /// How long a worker rests behind a turn, in ms.
    pub pause: u32,
    /// How long a connection and each reply are waited for, in ms.
    pub wait: u32,
    /// How many calls a book has room for.
    pub book: u32,
    /// How free watts are shared.
    pub policy: &'static str,
}

/// A plant under 10 kW, in which free watts go to whoever asks first.
pub const PLANT: Plant = Plant {
    cap: 10_000_000,
    pause: 1_000,
    wait: 2_000,
    book: 2_000,
    policy: "open",
};

/// Where an inverter is reached, and its rating in W.
#[derive(Clone, Copy)]
pub struct Inverter {
    pub host: &'static str,
    pub port: u16,
    pub watts: u16,
}

/// An inverter of 6 kW.
pub const INVERTER: Inverter = Inverter {
    host: "plant",
    port: 5_020,
    watts: 6_000,
};

/// The site file of a plant with these inverters.
pub fn site_file(
    alloc: Global,
    plant: Plant,
    inverters: &[Inverter],
) -> Result<String, AllocError> {
    let Plant {
        cap,
        pause,
        wait,
        book,
        policy,
    } = plant;
    let mut text = format!(in alloc;
        "cap = {cap}
send = 1000
delay = 4000
timer = 60
per_mille = 20
slack = 500
renew = 20000
pause = {pause}
wait = {wait}
book = {book}
policy = \"{policy}\"
"
    )?;
    for inverter in inverters {
        let Inverter { host, port, watts } = *inverter;
        let table = format!(in alloc;
            "[[inverter]]
host = \"{host}\"
port = {port}
unit = 1
base = 40296
wmax = {watts}
wsf = 0
psf = -1
floor = 100
"
        )?;
        text.push_str(table.as_str())?;
    }
    Ok(text)
}
