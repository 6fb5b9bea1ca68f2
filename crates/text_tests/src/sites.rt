ghost use Rattle.std.specs.Prelude.{◌≤◌, IfOk};
ghost use Rattle.plant_book.specs.Site.{inverters};

use limiter_num::{Point, RatingFault, Rules};
use plant_book::{Policy, Port, Site};
use site_config::{Key, SITE_BYTES_MAX, SiteError, SiteFault, SiteFile, site_of, summary_text};
use std::alloc::Global;
use std::process::Abort;
use std::test::Fail;

/// The keys of a site, and what `check` tells of it with 64 inverters of 50 kW.
const SITE: &str = "cap = 400000000
send = 1000
delay = 4000
timer = 60
per_mille = 20
slack = 500
renew = 20000
pause = 1000
wait = 2000
book = 100000
policy = \"fair\"
";

const SUMMARY: &str = "cap 400000000
inverters 64
floors 320000000
tmin 58300
tmax 61700
reach 66700
renew 20000
";

/// An inverter of 50 kW.
const INVERTER: &str = "
[[inverter]]
host = \"localhost\"
port = 5020
unit = 1
base = 40296
wmax = 50000
wsf = 0
psf = -1
floor = 100
";

/// The file of some bytes, or why there is none.
fn read(rt: &impl Abort, alloc: Global, bytes: &[u8]) -> Result<SiteFile, SiteError>
    ensures { IfOk result (λ file. inverters file.site ≤ 64) }
{
    assert!(rt; bytes.len() <= SITE_BYTES_MAX);
    site_of(alloc, bytes)
}

/// The site with 64 inverters at ports one after the other.
fn all_64(alloc: Global) -> Result<String, Fail> {
    let mut text = String::from_str(alloc, SITE)?;
    for number in 0..64u16 {
        let port = format!(in alloc; "port = {}", 5020 + number)?;
        let inverter = INVERTER.replacen(alloc, "port = 5020", port.as_str(), 1)?;
        text.push_str(inverter.as_str())?;
    }
    Ok(text)
}

/// What `check` tells of 64 inverters, behind a mark.
fn summary_of_64(alloc: Global) -> Result<String, Fail> {
    let mut text = format!(in alloc; "# {SUMMARY}")?;
    for number in 0..64u16 {
        writeln!(
            &mut text,
            "inverter {number} full 1000 rated 50000000 floor 5000000"
        )?;
    }
    Ok(text)
}

/// Whether the summary of a file behind a mark is that of 64 inverters.
fn is_told(alloc: Global, file: &SiteFile) -> Result<bool, Fail>
    requires { inverters file.now.site ≤ 64 }
{
    let mut out = Vec::from_slice(alloc, b"# ")?;
    let told = summary_text(&mut out, file).is_ok();
    Ok(told && out.as_slice() == summary_of_64(alloc)?.as_bytes())
}

/// Whether the site has the rules, the policy and the room of the text.
fn has_site(site: &Site) -> bool {
    site.policy == Policy::Fair
        && site.room == 100_000
        && Rules::new(1_000, 4_000, 60, 20, 500) == Ok(site.rules)
}

/// Whether the last inverter is reached as the text says.
fn has_port(port: &Port) -> bool {
    port.host.as_str() == "localhost" && port.port == 5_083 && port.unit == 1 && port.base == 40_296
}

#[test]
fn the_file_of_64_inverters_and_its_summary(rt: HostRuntime) -> Result<(), Fail> {
    let alloc = rt.alloc();
    let Ok(file) = read(&rt, alloc, all_64(alloc)?.as_bytes()) else {
        return Err("no site file".into());
    };
    assert!(rt; has_site(&file.site));
    assert!(rt; file.ports.last().is_some_and(has_port));
    assert!(rt; file.renew == 20_000 && file.pause == 1_000 && file.wait == 2_000);
    assert!(rt; is_told(alloc, &file)?);
    Ok(())
}

/// The site with one inverter, with another text in one place.
fn changed(alloc: Global, old: &str, new: &str) -> Result<String, Fail> {
    let mut text = String::from_str(alloc, SITE)?;
    text.push_str(INVERTER)?;
    if !text.as_str().contains(old) {
        return Err("the text isn't there".into());
    }
    Ok(text.as_str().replacen(alloc, old, new, 1)?)
}

/// Why the file of one inverter is refused with another text in one place, if it is.
fn judged(rt: &impl Abort, alloc: Global, old: &str, new: &str) -> Result<Option<SiteError>, Fail> {
    Ok(read(rt, alloc, changed(alloc, old, new)?.as_bytes()).err())
}

/// A key, the inverter whose key it is, its line, its least and its greatest integer.
type Range = (Key, Option<u32>, &'static str, i64, i64);

const RANGES: [Range; 17] = [
    (Key::Cap, None, "cap = 400000000", 0, 100_000_000_000_000),
    (Key::Send, None, "send = 1000", 1, 60_000),
    (Key::Delay, None, "delay = 4000", 0, 600_000),
    (Key::Timer, None, "timer = 60", 1, 86_400),
    (Key::PerMille, None, "per_mille = 20", 0, 500),
    (Key::Slack, None, "slack = 500", 0, 600_000),
    (Key::Renew, None, "renew = 20000", 1, 86_400_000),
    (Key::Pause, None, "pause = 1000", 0, 600_000),
    (Key::Wait, None, "wait = 2000", 1, 60_000),
    (Key::Book, None, "book = 100000", 1, 1_048_576),
    (Key::Port, Some(0), "port = 5020", 1, 65_535),
    (Key::Unit, Some(0), "unit = 1", 0, 255),
    (Key::Base, Some(0), "base = 40296", 0, 65_514),
    (Key::Wmax, Some(0), "wmax = 50000", 0, 65_535),
    (Key::Wsf, Some(0), "wsf = 0", -32_768, 32_767),
    (Key::Psf, Some(0), "psf = -1", -32_768, 32_767),
    (Key::Floor, Some(0), "floor = 100", 0, 65_535),
];

/// Whether a key with this integer is in its range.
fn in_range(rt: &impl Abort, alloc: Global, range: Range, value: i64) -> Result<bool, Fail> {
    let (key, inverter, line, _, _) = range;
    let mut new = String::from_str(alloc, key.name())?;
    write!(&mut new, " = {value}")?;
    let out = SiteFault::OutOfRange {
        key,
        inverter,
        value,
    };
    Ok(judged(rt, alloc, line, new.as_str())? != Some(SiteError::Bad(out)))
}

#[test]
fn each_key_at_the_ends_of_its_range(rt: HostRuntime) -> Result<(), Fail> {
    for range in RANGES {
        let (_, _, line, least, greatest) = range;
        let alloc = rt.alloc();
        assert!(rt; in_range(&rt, alloc, range, least)?, "{line}");
        assert!(rt; in_range(&rt, alloc, range, greatest)?, "{line}");
        assert!(rt;
            !in_range(&rt, alloc, range, least.saturating_sub(1))?,
            "{line}"
        );
        assert!(rt;
            !in_range(&rt, alloc, range, greatest.saturating_add(1))?,
            "{line}"
        );
    }
    Ok(())
}

/// A text in the file of one inverter, what stands in its place, and the first fault that this makes.
type Case = (&'static str, &'static str, SiteFault);

const CASES: [Case; 26] = [
    (
        "cap = 400000000",
        "cap = 9223372036854775808",
        SiteFault::NotToml,
    ),
    ("cap", "big = 9223372036854775808\ncap", SiteFault::NotToml),
    ("cap", "cap = 1\ncap", SiteFault::NotToml),
    (
        "cap = 400000000\n",
        "",
        SiteFault::Missing {
            key: Key::Cap,
            inverter: None,
        },
    ),
    (
        "floor = 100",
        "",
        SiteFault::Missing {
            key: Key::Floor,
            inverter: Some(0),
        },
    ),
    (
        "send = 1000\ndelay = 4000",
        "",
        SiteFault::Missing {
            key: Key::Send,
            inverter: None,
        },
    ),
    (
        "wait = 2000",
        "wait = 2000.0",
        SiteFault::WrongKind {
            key: Key::Wait,
            inverter: None,
        },
    ),
    (
        "cap = 400000000",
        "cap = \"400000000\"",
        SiteFault::WrongKind {
            key: Key::Cap,
            inverter: None,
        },
    ),
    (
        "\"fair\"",
        "1",
        SiteFault::WrongKind {
            key: Key::Policy,
            inverter: None,
        },
    ),
    (
        "\"localhost\"",
        "true",
        SiteFault::WrongKind {
            key: Key::Host,
            inverter: Some(0),
        },
    ),
    (
        "\"fair\"",
        "\"Fair\"",
        SiteFault::BadText {
            key: Key::Policy,
            inverter: None,
        },
    ),
    (
        "\"localhost\"",
        "\"\"",
        SiteFault::BadText {
            key: Key::Host,
            inverter: Some(0),
        },
    ),
    (
        "localhost",
        "a2345678901234567890123456789012345678901234567890123456789012345",
        SiteFault::BadText {
            key: Key::Host,
            inverter: Some(0),
        },
    ),
    (
        "\n[[inverter]]",
        "inverter = []\n[other]",
        SiteFault::NoInverter,
    ),
    ("[[inverter]]", "[[inverters]]", SiteFault::NoInverter),
    (
        "[[inverter]]",
        "[inverter]",
        SiteFault::WrongKind {
            key: Key::Inverter,
            inverter: None,
        },
    ),
    (
        "\n[[inverter]]",
        "inverter = [{}, 1]\n[other]",
        SiteFault::WrongKind {
            key: Key::Inverter,
            inverter: None,
        },
    ),
    (
        "wmax = 50000",
        "wmax = 65535",
        SiteFault::Unrated {
            inverter: 0,
            cause: RatingFault::NotImplemented(Point::WMax),
        },
    ),
    (
        "psf = -1",
        "psf = 11",
        SiteFault::Unrated {
            inverter: 0,
            cause: RatingFault::ScaleOut(Point::PctSf, 11),
        },
    ),
    (
        "floor = 100",
        "floor = 1001",
        SiteFault::FloorOut {
            inverter: 0,
            full: 1_000,
        },
    ),
    (
        "renew = 20000",
        "renew = 4168",
        SiteFault::RenewTooShort { least: 4_169 },
    ),
    (
        "cap = 400000000",
        "cap = 4999999",
        SiteFault::FloorsOverCap(5_000_000),
    ),
    // Of two faults the first one.
    (
        "cap = 400000000",
        "cap = 1\nextra = 1",
        SiteFault::FloorsOverCap(5_000_000),
    ),
    (
        "[[inverter]]",
        "[[inverter]]\n[[inverter]]",
        SiteFault::Missing {
            key: Key::Host,
            inverter: Some(0),
        },
    ),
    (
        "renew = 20000\npause = 1000",
        "renew = 1\npause = -1",
        SiteFault::OutOfRange {
            key: Key::Pause,
            inverter: None,
            value: -1,
        },
    ),
    (
        "wmax = 50000\nwsf = 0\npsf = -1\nfloor = 100",
        "wmax = 0\nwsf = 0\npsf = -1\nfloor = -1",
        SiteFault::OutOfRange {
            key: Key::Floor,
            inverter: Some(0),
            value: -1,
        },
    ),
];

#[test]
fn each_fault_at_its_place(rt: HostRuntime) -> Result<(), Fail> {
    for (old, new, fault) in CASES {
        assert_eq!(rt;
            judged(&rt, rt.alloc(), old, new)?,
            Some(SiteError::Bad(fault)),
            "{new}"
        );
    }
    let bytes = [0xFF; 3];
    assert_eq!(rt;
        read(&rt, rt.alloc(), &bytes).err(),
        Some(SiteError::Bad(SiteFault::NotToml))
    );
    Ok(())
}

/// What stands in a file in place of another text, and leaves it a site file.
const TAKEN: [(&str, &str); 6] = [
    ("renew = 20000", "renew = 4169"),
    ("cap = 400000000", "cap = 5000000"),
    ("\"fair\"", "\"open\""),
    (
        "localhost",
        "a234567890123456789012345678901234567890123456789012345678901234",
    ),
    (
        "cap = 400000000",
        "cap = 400000000\nother = [1, { cap = 1.5 }]",
    ),
    (
        "\n[[inverter]]",
        "inverter = [{ host = \"a\", port = 1, unit = 1, base = 0, wmax = 1, wsf = 0, psf = 0, floor = 0 }]\n[other]",
    ),
];

#[test]
fn other_files_that_are_taken(rt: HostRuntime) -> Result<(), Fail> {
    for (old, new) in TAKEN {
        assert_eq!(rt; judged(&rt, rt.alloc(), old, new)?, None, "{new}");
    }
    Ok(())
}

/// The site with so many empty tables of inverters.
fn with_tables(alloc: Global, count: u32) -> Result<String, Fail> {
    let mut text = format!(in alloc; "{SITE}inverter = [")?;
    for _ in 0..count {
        text.push_str("{},")?;
    }
    text.push_str("]\n")?;
    Ok(text)
}

#[test]
fn at_most_64_inverters(rt: HostRuntime) -> Result<(), Fail> {
    let missing = SiteFault::Missing {
        key: Key::Host,
        inverter: Some(0),
    };
    let most = read(&rt, rt.alloc(), with_tables(rt.alloc(), 64)?.as_bytes()).err();
    assert_eq!(rt; most, Some(SiteError::Bad(missing)));
    let more = read(&rt, rt.alloc(), with_tables(rt.alloc(), 65)?.as_bytes()).err();
    assert_eq!(rt; more, Some(SiteError::Bad(SiteFault::TooManyInverters(65))));
    Ok(())
}
