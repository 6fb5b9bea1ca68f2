ghost use Rattle.std.specs.Prelude.{ℕ, ◌≤◌, List, IfErr, IfOk};
ghost use Rattle.plant_book.specs.Answered.{IsOpenable};
ghost use Rattle.site_config.specs.SiteFile.{IsInRange};
ghost use Rattle.stream_io.specs.Streams.{change};
ghost use Rattle.command_io.specs.Site.{ReadsSite, FindsNoSite};

use crate::ended::Ended;
use site_config::{SITE_BYTES_MAX, SiteError, SiteFile, site_of};
use std::alloc::Global;
use stream_io::{InputFault, read_whole};
use world_traits::Source;

/// How many bytes a site file has at most.
const SITE_MAX: u32 = SITE_BYTES_MAX as u32;

/// Reads a site file to its end, or tells how the command ends that needs it.
pub fn read_site<S: Source>(alloc: Global, source: &mut S) -> Result<SiteFile, Ended>
    ensures later { S.faults source.old ≤ S.faults source.new }
    ensures file { IfOk result (λ file.
        (read : List ℕ) × ReadsSite file read (change S.left S.faults source.old source.new)) }
    ensures ended { IfErr result (λ ended.
        (read : List ℕ) × FindsNoSite ended read (change S.left S.faults source.old source.new)) }

    // A plant can be opened of the site, and its inverters be reached.
    ensures openable { IfOk result (λ file. IsOpenable file.site) }
    ensures in_range { IfOk result IsInRange }
{
    let bytes = match read_whole(alloc, source, SITE_MAX) {
        Ok(bytes) => bytes,
        Err(InputFault::Failed) => return Err(Ended::ReadFault),
        Err(InputFault::TooLong) => return Err(Ended::TooLong { limit: SITE_MAX }),
        Err(InputFault::NoMemory) => return Err(Ended::NoMemory),
    };
    match site_of(alloc, &bytes) {
        Ok(file) => Ok(file),
        Err(SiteError::NoMemory) => Err(Ended::NoMemory),
        Err(SiteError::Bad(fault)) => Err(Ended::BadSite(fault)),
    }
}
