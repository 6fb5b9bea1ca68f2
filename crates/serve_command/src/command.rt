ghost use Rattle.std.specs.Prelude.{◌≡◌, ◌≤◌, ℕ, List};
ghost use Rattle.limiter_num.specs.Timers.{tmax};
ghost use Rattle.site_config.specs.SiteFile.{IsInRange};
ghost use Rattle.inverter_sim.specs.Bank.{new_bank};
ghost use Rattle.stream_io.specs.Streams.{change};
ghost use Rattle.command_link.specs.Dialing.{dialing};
ghost use Rattle.serve_command.specs.Serve.{IsServeDue, IsServeEnd, Serves};

use command_io::{Ended, LiveFault, read_site};
use command_link::find_inverter;
use commission_run::Job;
use inverter_sim::Bank;
use limiter_num::Rules;
use plant_book::{Port, Unit};
use site_config::SiteFile;
use std::alloc::Global;
use world_traits::{Clock, Dialer, Source};

/// The simulation of an inverter, which reverts as late as the tolerance of its timer allows.
#[tactic(auto, using(crate::proofs::Timers::tmin_tmax))]
fn simulated(unit: Unit, rules: Rules, port: &Port) -> Bank
    ensures { result ≡ new_bank unit rules port.now.unit (tmax rules) }
{
    let after = rules.tmax();
    Bank::new(unit, rules, port.unit, after)
}

/// Serves a simulation of the inverter of this number of a site file. It takes no memory.
fn serve_inverter<N: Dialer, K: Clock>(
    file: SiteFile,
    inverter: u8,
    turns: u32,
    dialer: &mut N,
    clock: &K,
) -> Ended
    requires { IsInRange file }
    ensures { Serves (K.may_give clock.now) file inverter turns
        (dialing N.links N.faults dialer.old dialer.new) result }
{
    let job = match find_inverter(file, inverter) {
        Ok(job) => job,
        Err(count) => return Ended::Refused(LiveFault::NoSuchInverter(count)),
    };
    let Job {
        unit,
        port,
        rules,
        wait,
        ..
    } = job;
    let bank = simulated(unit, rules, &port);
    inverter_server::serve(bank, &port, turns, wait, dialer, clock);
    Ended::Done
}

/// Reads the site file to its end, and serves a simulation of the inverter of this number in so many turns. It takes
/// memory only to read the site file.
pub fn serve<S: Source, N: Dialer, K: Clock>(
    alloc: Global,
    inverter: u8,
    turns: u32,
    site: &mut S,
    dialer: &mut N,
    clock: &K,
) -> Ended
    ensures ends { (read : List ℕ) × IsServeEnd (K.may_give clock.now) inverter turns read
        (change S.left S.faults site.old site.new) (dialing N.links N.faults dialer.old dialer.new) result }
    ensures due { IsServeDue inverter result (change S.left S.faults site.old site.new) }
{
    match read_site(alloc, site) {
        Ok(file) => serve_inverter(file, inverter, turns, dialer, clock),
        Err(ended) => ended,
    }
}
