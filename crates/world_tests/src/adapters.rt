//! Each adapter over a network and a clock that note what they are asked, and once over the real thing: no clause says
//! what a file, a connection or the clock gives.

mod noted;
mod noted_links;
mod real_links;
mod real_streams;

use world_traits::{DialFailed, Dialer, Received, RecvFailed, SendFailed};

pub fn dial<N: Dialer>(dialer: &mut N, host: &str, port: u16, wait: u32) -> Result<(), DialFailed> {
    dialer.dial(host, port, wait)
}

pub fn send<N: Dialer>(dialer: &mut N, bytes: &[u8]) -> Result<usize, SendFailed> {
    dialer.send(bytes)
}

pub fn recv<N: Dialer>(dialer: &mut N, into: &mut [u8]) -> Result<Received, RecvFailed> {
    dialer.recv(into)
}
