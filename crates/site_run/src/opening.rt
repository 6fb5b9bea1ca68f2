//! The ledger and the workers of a site.
ghost use Rattle.std.specs.Prelude.{◌≡◌, ◌≤◌, length, IfOk};
ghost use Rattle.std.specs.List.{All};
ghost use Rattle.plant_book.specs.Port.{PortRecord};
ghost use Rattle.plant_book.specs.Site.{inverters};
ghost use Rattle.plant_book.specs.Answered.{IsOpenable};
ghost use Rattle.site_config.specs.SiteFile.{SiteFileRecord, IsInRange};
ghost use Rattle.site_run.specs.Run.{AreSeated, IsOpened};

use inverter_worker::Job;
use limiter_num::NoMemory;
use plant_book::{MOMENT_MAX, Port, Site};
use plant_ledger::Plant;
use site_config::SiteFile;
use std::alloc::Global;
use worker_turn::Worker;

/// A ledger before its first call, and the worker of each inverter before its first turn.
#[derive(Drop)]
pub struct Opening {
    pub plant: Plant,
    pub workers: Vec<Worker>,
}

/// When a worker asks anew, rests and stops waiting, in ms.
#[derive(Clone, Copy)]
struct Pace {
    renew: u32,
    pause: u32,
    wait: u32,
}

/// The worker of each inverter, in their order, with so many turns.
fn workers_of(
    alloc: Global,
    site: &Site,
    ports: Vec<Port>,
    pace: Pace,
    turns: u32,
) -> Result<Vec<Worker>, NoMemory>
    requires few { inverters site.now ≤ 64 }
    requires ports { length ports.items ≡ inverters site.now }
    requires bases { All (λ (port : PortRecord). port.base ≤ 65514) ports.items }
    ensures { IfOk result (λ workers. AreSeated
        (record { site = site.now; ports = ports.items; renew = pace.renew; pause = pace.pause; wait = pace.wait })
        turns (inverters site.now) workers.items) }
{
    let mut workers = Vec::new(alloc);
    for port in ports {
        let number = workers.len();
        let job = Job {
            inverter: number as u8,
            unit: site.units[number],
            port,
            rules: site.rules,
            renew: pace.renew,
            pause: pace.pause,
            wait: pace.wait,
        };
        if workers.push(Worker::new(alloc, job, turns)).is_err() {
            return Err(NoMemory);
        }
    }
    Ok(workers)
}

/// The ledger of a site, whose life begins at a moment in ms, and the worker of each inverter in their order, before its
/// first of so many turns.
pub fn open_site(alloc: Global, file: SiteFile, turns: u32, start: u64) -> Result<Opening, NoMemory>
    requires openable { IsOpenable file.site }
    requires in_range { IsInRange file }
    requires start { start ≤ MOMENT_MAX }
    ensures { IfOk result (λ opened. IsOpened file turns start opened.plant opened.workers.items) }
{
    let SiteFile {
        site,
        ports,
        renew,
        pause,
        wait,
    } = file;
    let pace = Pace { renew, pause, wait };
    let workers = workers_of(alloc, &site, ports, pace, turns)?;
    match Plant::open(alloc, site, start) {
        Ok(plant) => Ok(Opening { plant, workers }),
        Err(_) => Err(NoMemory),
    }
}
