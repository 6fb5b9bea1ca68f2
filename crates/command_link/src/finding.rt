ghost use Rattle.std.specs.Prelude.{◌≡◌, ◌≤◌, IfErr, IfOk};
ghost use Rattle.plant_book.specs.Site.{inverters};
ghost use Rattle.site_config.specs.SiteFile.{IsInRange};
ghost use Rattle.command_link.specs.Finding.{IsJob};

use commission_run::Job;
use site_config::SiteFile;

/// The inverter of this number in a site file, or how many the file has where it has none of that number. It takes no
/// memory.
pub fn find_inverter(file: SiteFile, inverter: u8) -> Result<Job, u32>
    requires { IsInRange file }
    ensures job { IfOk result (IsJob file inverter) }
    ensures base { IfOk result (λ job. job.port.base ≤ 65514) }
    ensures count { IfErr result (λ count. (count ≡ inverters file.site) × (count ≤ inverter)) }
{
    let SiteFile {
        site,
        mut ports,
        wait,
        ..
    } = file;
    let place = usize::from(inverter);
    let count = site.units.len();
    if count <= place {
        return Err(count as u32);
    }
    Ok(Job {
        inverter,
        unit: site.units[place],
        port: ports.swap_remove(place),
        rules: site.rules,
        wait,
    })
}
