ghost use Rattle.std.specs.Prelude.{◌≡◌, ◌≤◌, ℕ, List};
ghost use Rattle.site_config.specs.SiteFile.{IsInRange};
ghost use Rattle.stream_io.specs.Streams.{change};
ghost use Rattle.command_link.specs.Dialing.{dialing};
ghost use Rattle.commission_command.specs.Commission.{CommissionsOne, IsCommissionDue, IsCommissionEnd, end_of, fault_of};

use command_io::{Ended, LiveFault, read_site};
use command_link::find_inverter;
use commission_run::{Refusal, Stop};
use site_config::SiteFile;
use std::alloc::Global;
use world_traits::{Dialer, Sink, Source};

/// The refusal of the command, by that of the commissioning.
fn live_fault(refusal: Refusal) -> LiveFault
    ensures { result ≡ fault_of refusal }
{
    match refusal {
        Refusal::Dial => LiveFault::Dial,
        Refusal::Send => LiveFault::Send,
        Refusal::Recv => LiveFault::Recv,
        Refusal::Quiet => LiveFault::Quiet,
        Refusal::Closed => LiveFault::Closed,
        Refusal::BadFrame(fault) => LiveFault::BadFrame(fault),
        Refusal::Commission(fault) => LiveFault::Commission(fault),
    }
}

/// How the command ends, by how the commissioning did.
fn end(outcome: Result<(), Stop>) -> Ended
    ensures { result ≡ end_of outcome }
{
    match outcome {
        Ok(()) => Ended::Done,
        Err(Stop::WriteFailed) => Ended::WriteFault,
        Err(Stop::Refused(refusal)) => Ended::Refused(live_fault(refusal)),
    }
}

/// Commissions the inverter of this number of a site file over one link. It takes no memory.
fn commission_inverter<O: Sink, N: Dialer>(
    file: SiteFile,
    inverter: u8,
    out: &mut O,
    dialer: &mut N,
) -> Ended
    requires { IsInRange file }
    ensures commissions { CommissionsOne file inverter (change O.taken O.faults out.old out.new)
        (dialing N.links N.faults dialer.old dialer.new) result }
    ensures stops { O.faults out.old ≡ 0 → O.late out.new ≡ O.late out.old }
{
    match find_inverter(file, inverter) {
        Ok(job) => end(commission_run::commission(job, dialer, out)),
        Err(count) => Ended::Refused(LiveFault::NoSuchInverter(count)),
    }
}

/// Reads the site file to its end, and commissions the inverter of this number over one link. It takes memory only to
/// read the site file.
pub fn commission<S: Source, O: Sink, N: Dialer>(
    alloc: Global,
    inverter: u8,
    site: &mut S,
    out: &mut O,
    dialer: &mut N,
) -> Ended
    ensures ends { (read : List ℕ) × IsCommissionEnd inverter read (change S.left S.faults site.old site.new)
        (change O.taken O.faults out.old out.new) (dialing N.links N.faults dialer.old dialer.new) result }
    ensures due { IsCommissionDue inverter (change S.left S.faults site.old site.new)
        (change O.taken O.faults out.old out.new) (dialing N.links N.faults dialer.old dialer.new) result }
    ensures stops { O.faults out.old ≡ 0 → O.late out.new ≡ O.late out.old }
{
    match read_site(alloc, site) {
        Ok(file) => commission_inverter(file, inverter, out, dialer),
        Err(ended) => ended,
    }
}
