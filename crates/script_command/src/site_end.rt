ghost use Rattle.std.specs.Prelude.{◌≡◌};
ghost use Rattle.script_command.specs.Ends.{site_end};

use command_io::Ended;
use plant_ledger::OpenFault;
use site_config::SiteFault;

/// The end at a site of which no book is opened.
pub fn end_of_site(fault: OpenFault) -> Ended
    ensures { result ≡ site_end fault }
{
    match fault {
        OpenFault::NoInverter => Ended::BadSite(SiteFault::NoInverter),
        OpenFault::TooManyInverters(inverters) => {
            Ended::BadSite(SiteFault::TooManyInverters(inverters))
        }
        OpenFault::FloorsOverCap(floors) => Ended::BadSite(SiteFault::FloorsOverCap(floors)),
        OpenFault::NoMemory => Ended::NoMemory,
    }
}
