ghost use Rattle.std.specs.Prelude.{◌≡◌, ◌≤◌, [], length, IfOk, IfErr, OnOk, None};
ghost use Rattle.script_text.specs.declared.script.TheConstants.{SCRIPT_BYTES_MAX};
ghost use Rattle.plant_book.specs.declared.call.TheConstants.{MOMENT_MAX};
ghost use Rattle.plant_ledger.specs.Opening.{open_fault};
ghost use Rattle.script_text.specs.Text.{head_text};
ghost use Rattle.script_replay.specs.Replay.{IsReplay, Explains, RefusesSite};
ghost use Rattle.script_replay.specs.Playing.{IsFirstLife};

use crate::playing::play;
use crate::reading::{begin, judge_rest};
use limiter_num::NoMemory;
use plant_book::Site;
use plant_ledger::{OpenFault, Plant};
use script_text::{Begun, LineKind, head_text};
use std::alloc::Global;

/// The text of a script's lives.
#[derive(Debug, Drop)]
pub struct Replayed {
    /// The text, up to where a book was full.
    pub text: Vec<u8>,
    /// The calls of the first book that had no room for the next call line, if there was one.
    pub full: Option<u32>,
}

/// Why a script isn't replayed.
#[derive(Clone, Copy, Debug, PartialEq, Eq)]
pub enum ReplayFault {
    /// The first bad line.
    BadLine {
        /// Its number, from 1.
        line: u32,
        /// How it is at fault.
        kind: LineKind,
    },
    /// No book is opened of its site.
    BadSite(OpenFault),
    /// Memory ran out.
    NoMemory,
}

/// The plant of the first life of a script.
fn open(alloc: Global, site: Site, start: u64) -> Result<Plant, ReplayFault>
    requires { start ≤ MOMENT_MAX }
    ensures opened { IfOk result (λ plant. IsFirstLife (record { site = site; start = start; lines = [] }) plant) }
    ensures openable { OnOk result (open_fault site ≡ None) }
    ensures fault { IfErr result (λ fault. RefusesSite site fault) }
{
    match Plant::open(alloc, site, start) {
        Ok(plant) => Ok(plant),
        Err(OpenFault::NoMemory) => Err(ReplayFault::NoMemory),
        Err(fault) => Err(ReplayFault::BadSite(fault)),
    }
}

/// The text of the head of a script.
fn head(alloc: Global, site: &Site, start: u64) -> Result<Vec<u8>, ReplayFault>
    ensures text { IfOk result (λ text. text.items ≡ head_text site.now start) }
    ensures fault { IfErr result (λ fault. fault ≡ ReplayFault.NoMemory) }
{
    let mut text = Vec::new(alloc);
    match head_text(&mut text, site, start) {
        Ok(()) => Ok(text),
        Err(NoMemory) => Err(ReplayFault::NoMemory),
    }
}

/// The plant of the first life of a script, and the text of its head. A site that is refused comes before want of
/// memory for the text.
fn first_life(alloc: Global, site: Site, start: u64) -> Result<(Plant, Vec<u8>), ReplayFault>
    requires { start ≤ MOMENT_MAX }
    ensures opened { IfOk result (λ life. IsFirstLife (record { site = site; start = start; lines = [] }) life.0) }
    ensures text { IfOk result (λ life. life.1.items ≡ head_text site start) }
    ensures fault { IfErr result (λ fault. RefusesSite site fault) }
{
    let text = head(alloc, &site, start);
    let plant = open(alloc, site, start)?;
    Ok((plant, text?))
}

/// Replays a script: does its lines one after another as they are read, and writes the text of its lives.
///
/// A bad line comes before a site that is refused, and both before want of memory.
pub fn replay_script(alloc: Global, bytes: &[u8]) -> Result<Replayed, ReplayFault>
    requires { length bytes.now ≤ SCRIPT_BYTES_MAX }
    ensures text { IfOk result (λ replayed. IsReplay bytes.now replayed.full replayed.text.items) }
    ensures fault { IfErr result (λ fault. Explains fault bytes.now) }
{
    let Begun {
        site,
        start,
        mut lines,
    } = begin(alloc, bytes)?;
    match first_life(alloc, site, start) {
        Ok((mut plant, mut text)) => {
            let full = play(alloc, &mut lines, &mut plant, &mut text)?;
            Ok(Replayed { text, full })
        }
        Err(fault) => {
            judge_rest(&mut lines)?;
            Err(fault)
        }
    }
}
