ghost use Rattle.std.specs.Prelude.{◌≡◌, ◌<◌, ◌≤◌, ◌++◌, ◌∷◌, [], drop, filter, length, not, slice_get, Some, OnOk, IfOk, MatchOption};
ghost use Rattle.plant_simulator.specs.World.{fresh};
ghost use Rattle.plant_simulator.specs.Inverter as rule;

use inverter_sim::HeldLimit;
use limiter_num::NoMemory;
use plant_book::{Read, Reply, Write};
use std::alloc::{AllocError, Global};
use std::marker::Model;

/// The floor of each inverter as a raw percentage.
pub const FLOOR: u16 = 100;

const _: () = prove!(FLOOR == 100);

/// How long after its grant a write may act at the latest, in ms: the send window and the delay of a frame.
const LAST_ACT: u64 = 5_000;

const _: () = prove!(LAST_ACT == 5_000);

/// A request on its way to an inverter.
#[derive(Clone, Copy, Debug, PartialEq, Eq)]
pub enum Request {
    /// A write that was granted.
    Write(Write),
    /// A read-back.
    Read(Read),
}

/// A write on its way that was granted on an earlier link, or in an earlier life.
#[derive(Clone, Copy, Debug, PartialEq, Eq)]
pub struct OldWrite {
    /// The number of its life, from 1.
    pub life: u32,
    /// The write.
    pub write: Write,
}

/// A simulated inverter, with the requests on their way to it.
#[derive(Debug, Drop)]
pub struct Inverter {
    /// The limit that it holds.
    limit: HeldLimit,
    /// The requests of its link that are not delivered yet, in order.
    line: Vec<Request>,
    /// The writes of its earlier links that are not delivered yet, in the order in which they came here.
    strays: Vec<OldWrite>,
}

impl Model for Inverter {
    ghost use Rattle.plant_simulator.specs.World.{InverterRecord};

    ghost Value = { InverterRecord };

    ghost view = { λ i. record {
      held = i.limit.raw;
      due = i.limit.revert;
      line = i.line.items;
      strays = i.strays.items;
    } };
}

/// Whether a write is past the last moment at which it may act.
fn is_late(now: u64, write: &Write) -> bool
    ensures { result ≡ rule.is_late now write.now }
{
    now.saturating_sub(write.at) > LAST_ACT
}

/// Whether a request is a write that is too late.
fn is_late_request(now: u64, request: &Request) -> bool
    ensures { result ≡ rule.is_late_request now request.now }
{
    match request {
        Request::Write(write) => is_late(now, write),
        Request::Read(_) => false,
    }
}

impl Inverter {
    /// An inverter that holds its floor, and to which nothing is on its way.
    pub fn new(alloc: Global) -> Inverter
        ensures { result ≡ fresh }
    {
        Inverter {
            limit: HeldLimit::of_floor(FLOOR),
            line: Vec::new(alloc),
            strays: Vec::new(alloc),
        }
    }

    /// The limit that it holds, as a raw percentage.
    pub fn held(&self) -> u16
        ensures { result ≡ self.now.held }
    {
        self.limit.raw()
    }

    /// Reverts to the floor where the moment for that has come.
    fn revert(&mut self, now: u64)
        ensures { self.new ≡ rule.reverted now self.old }
    {
        self.limit.pass(FLOOR, now);
    }

    /// Drops the writes that are too late.
    fn drop_late(&mut self, now: u64)
        ensures { self.new ≡ rule.without_late now self.old }
    {
        drop_late_requests(&mut self.line, now);
        drop_late_writes(&mut self.strays, now);
    }

    /// Goes on to a later moment in ms.
    #[tactic(auto, unfolding(crate::specs::Inverter::inverter_at))]
    pub fn pass(&mut self, now: u64)
        ensures { self.new ≡ rule.inverter_at now self.old }
    {
        self.revert(now);
        self.drop_late(now);
    }

    /// The request that a reply grants joins the line.
    #[tactic(auto, unfolding(crate::specs::Inverter::queued))]
    pub fn queue(&mut self, reply: &Reply) -> Result<(), NoMemory>
        ensures { OnOk result (self.new ≡ rule.queued reply.now self.old) }
    {
        match *reply {
            Reply::Granted(write) => self.line.push(Request::Write(write)).map_err(|_| NoMemory),
            Reply::ReadAs(read) => self.line.push(Request::Read(read)).map_err(|_| NoMemory),
            _ => Ok(()),
        }
    }

    /// Holds a limit until it reverts at a moment in ms.
    #[tactic(auto, unfolding(crate::specs::Inverter::holding))]
    pub fn hold(&mut self, raw: u16, revert: u64)
        ensures { self.new ≡ rule.holding raw revert self.old }
    {
        self.limit.hold(raw, revert);
    }

    /// The first request of the line.
    pub fn first(&self) -> Option<Request>
        ensures { MatchOption result (self.now.line ≡ [])
            (λ request. self.now.line ≡ request ∷ drop 1 self.now.line) }
    {
        self.line.first().copied()
    }

    /// Takes the first request off the line, if there is one.
    #[tactic(auto, unfolding(crate::specs::Inverter::without_first))]
    pub fn drop_first(&mut self)
        ensures { self.new ≡ rule.without_first self.old }
    {
        if !self.line.is_empty() {
            let _ = self.line.remove(0);
        }
    }

    /// Empties the line. Its writes are old ones of this life.
    #[tactic(auto, unfolding(crate::specs::Inverter::emptied))]
    pub fn empty(&mut self, life: u32) -> Result<(), NoMemory>
        ensures { OnOk result (self.new ≡ rule.emptied life self.old) }
    {
        add_writes(&mut self.strays, life, &self.line)?;
        self.line.clear();
        Ok(())
    }

    /// How many old writes are not delivered yet.
    pub fn old_writes(&self) -> usize
        ensures { result ≡ length self.now.strays }
    {
        self.strays.len()
    }

    /// Takes out the old write at a place, and the earlier ones of its link and life.
    #[tactic(auto, unfolding(crate::specs::Inverter::without_old))]
    pub fn take_old(&mut self, place: usize) -> Result<OldWrite, NoMemory>
        requires { place < length self.old.strays }
        ensures chosen { IfOk result (λ chosen. slice_get self.old.strays place ≡ Some chosen) }
        ensures left { IfOk result (λ chosen. self.new ≡ rule.without_old place chosen self.old) }
    {
        let chosen = self.strays[place];
        let (sooner, later) = self.strays.split_at(place + 1);
        let mut left = others(*self.strays.allocator(), sooner, chosen).map_err(|_| NoMemory)?;
        left.extend_from_slice(later).map_err(|_| NoMemory)?;
        self.strays = left;
        Ok(chosen)
    }
}

/// Drops the writes of a line that are too late.
fn drop_late_requests(line: &mut Vec<Request>, now: u64)
    ensures { line.new.items ≡ filter (λ request. not (rule.is_late_request now request)) line.old.items }
{
    line.retain(|request| !is_late_request(now, request));
}

/// Drops the old writes that are too late.
fn drop_late_writes(strays: &mut Vec<OldWrite>, now: u64)
    ensures { strays.new.items ≡ filter (λ write. not (rule.is_late now write.write)) strays.old.items }
{
    strays.retain(|write| !is_late(now, &write.write));
}

/// Adds the writes of a line as old ones of a life.
fn add_writes(strays: &mut Vec<OldWrite>, life: u32, line: &[Request]) -> Result<(), NoMemory>
    ensures { OnOk result (strays.new.items ≡ strays.old.items ++ rule.old_writes life line.now) }
{
    for request in line {
        add_write(strays, life, request)?;
    }
    Ok(())
}

/// Adds a request as an old one of a life, if it is a write.
fn add_write(strays: &mut Vec<OldWrite>, life: u32, request: &Request) -> Result<(), NoMemory>
    ensures { OnOk result
        (strays.new.items ≡ strays.old.items ++ rule.old_writes life (request.now ∷ [])) }
{
    match *request {
        Request::Write(write) => strays.push(OldWrite { life, write }).map_err(|_| NoMemory),
        Request::Read(_) => Ok(()),
    }
}

/// The writes that are not of the link and life of one.
fn others(alloc: Global, writes: &[OldWrite], chosen: OldWrite) -> Result<Vec<OldWrite>, AllocError>
    ensures { IfOk result (λ left. left.items ≡ filter (λ other. not (rule.is_of_link chosen other)) writes.now) }
{
    writes
        .iter()
        .filter(|other| other.life != chosen.life || other.write.link != chosen.write.link)
        .copied()
        .collect(alloc)
}
