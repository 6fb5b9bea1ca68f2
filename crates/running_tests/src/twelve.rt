//! The plant of a site file with twelve inverters, worked on one thread over simulated devices.
ghost use Rattle.std.specs.Prelude.{◌≡◌, ◌≤◌, IfOk, vec_len};
ghost use Rattle.plant_book.specs.Site.{inverters};
ghost use Rattle.plant_book.specs.Answered.{IsOpenable};
ghost use Rattle.site_config.specs.SiteFile.{IsInRange};

use device_dialers::DeviceDialer;
use inverter_sim::Bank;
use plant_book::Reply;
use plant_ledger::Plant;
use plant_run::run_plain;
use site_config::{SITE_BYTES_MAX, SiteFile, site_of};
use site_run::{Opening, open_site};
use std::alloc::Global;
use std::process::Abort;
use std::test::Fail;
use world_traits::{Clock, StepClock};

/// 400 kW for twelve inverters of 50 kW each, which share them fairly.
const PLANT: &str = "cap = 400000000
send = 1000
delay = 4000
timer = 60
per_mille = 20
slack = 500
renew = 20000
pause = 1000
wait = 2000
book = 100000
policy = \"fair\"
";

/// An inverter of it; its port stands behind.
const INVERTER: &str = "
[[inverter]]
host = \"localhost\"
unit = 1
base = 40296
wmax = 50000
wsf = 0
psf = -1
floor = 100
port = ";

fn site_file(alloc: Global) -> Result<SiteFile, Fail>
    ensures openable { IfOk result (λ file. IsOpenable file.site) }
    ensures in_range { IfOk result IsInRange }
{
    let mut text = String::from_str(alloc, PLANT)?;
    for port in 5_020..5_032 {
        let inverter = format!(in alloc; "{INVERTER}{port}\n")?;
        text.push_str(inverter.as_str())?;
    }
    let bytes = text.as_bytes();
    if bytes.len() > SITE_BYTES_MAX {
        return Err("a file of so few bytes")?;
    }
    Ok(site_of(alloc, bytes).ok().ok_or("a site")?)
}

/// A dialer for each inverter of the file, whose links reach a simulation of it.
fn devices<'c>(
    rt: &impl Abort,
    alloc: Global,
    file: &SiteFile,
    clock: &'c StepClock,
) -> Result<Vec<DeviceDialer<'c, StepClock>>, Fail> {
    let mut dialers = Vec::new(alloc);
    let rules = file.site.rules;
    let after = rules.tmax();
    assert!(rt; rules.tmin() <= after);
    for unit in &file.site.units {
        let bank = Bank::new(*unit, rules, 1, after);
        dialers.push(DeviceDialer::new(alloc, bank, clock, Vec::new(alloc)))?;
    }
    Ok(dialers)
}

/// The plant behind the turns of all workers.
fn worked(
    alloc: Global,
    file: SiteFile,
    dialers: &mut Vec<DeviceDialer<'_, StepClock>>,
    clock: &StepClock,
) -> Result<Plant, Fail>
    requires openable { IsOpenable file.site }
    requires in_range { IsInRange file }
    requires dialers { inverters file.site ≤ vec_len dialers.old }
{
    let start = clock.now();
    let Opening { plant, mut workers } = match open_site(alloc, file, 1_000, start) {
        Ok(opening) => opening,
        Err(_) => return Err("memory")?,
    };
    Ok(run_plain(alloc, plant, &mut workers, dialers, clock))
}

/// The raw percentage of the first write that was granted to each inverter, and whether an Ask found too many live writes.
fn first_grants(alloc: Global, plant: &Plant) -> Result<(Vec<Option<u16>>, bool), Fail> {
    let mut first: Vec<Option<u16>> = vec![in alloc; None; 12]?;
    let mut crowded = false;
    for place in 0..plant.calls() {
        match plant.entry(place).reply {
            Reply::Granted(write) => {
                if let Some(grant) = first.get_mut(usize::from(write.inverter)) {
                    *grant = grant.or(Some(write.raw));
                }
            }
            Reply::Crowded => crowded = true,
            _ => {}
        }
    }
    Ok((first, crowded))
}

#[test]
fn each_of_twelve_is_granted_its_share_first(rt: HostRuntime) -> Result<(), Fail> {
    let alloc = rt.alloc();
    let clock = StepClock::new(0, 1);
    let file = site_file(alloc)?;
    let mut dialers = devices(&rt, alloc, &file, &clock)?;
    assert!(rt; file.site.units.len() == 12 && dialers.len() == 12);
    let plant = worked(alloc, file, &mut dialers, &clock)?;
    let (first, crowded) = first_grants(alloc, &plant)?;
    // A twelfth of 400 kW is 33.3 kW, of which 50 kW times 66.6 percent is the greatest that fits.
    let share: Vec<Option<u16>> = vec![in alloc; Some(666); 12]?;
    assert_eq!(rt; (first, crowded), (share, false));
    Ok(())
}
