ghost use Rattle.std.specs.Prelude.{◌≡◌, ◌++◌, string_bytes, OnOk, OnErr};
ghost use Rattle.plant_simulator.specs.Text as rule;

use crate::summary::Summary;
use limiter_num::NoMemory;
use std::alloc::AllocError;

/// Adds the line of what was simulated.
fn put_run(text: &mut String, seed: u64, inverters: u32, steps: u32) -> Result<(), AllocError>
    ensures { OnOk result (string_bytes text.new ≡ string_bytes text.old ++ rule.run_line seed inverters steps) }
{
    writeln!(text, "seed {seed} inverters {inverters} steps {steps}")
}

/// Adds the lines of what came of it.
fn put_result(text: &mut String, summary: &Summary) -> Result<(), AllocError>
    ensures { OnOk result (string_bytes text.new ≡ string_bytes text.old ++ rule.result_lines summary.now) }
{
    let Summary {
        cap,
        lives,
        granted,
        freed,
        peak,
    } = *summary;
    write!(
        text,
        "cap {cap}\nlives {lives}\ngranted {granted}\nfreed {freed}\npeak {peak}\n"
    )
}

/// Appends the text of the summary of so many steps from a seed, or leaves `out` as it was.
pub fn summary_text(
    out: &mut Vec<u8>,
    seed: u64,
    inverters: u32,
    steps: u32,
    summary: &Summary,
) -> Result<(), NoMemory>
    ensures ok { OnOk result (out.new.items ≡ out.old.items ++ rule.text_of seed inverters steps summary.now) }
    ensures err { OnErr result (out.new.items ≡ out.old.items) }
{
    let mut text = String::new(*out.allocator());
    if put_run(&mut text, seed, inverters, steps).is_err() {
        return Err(NoMemory);
    }
    if put_result(&mut text, summary).is_err() {
        return Err(NoMemory);
    }
    match out.extend_from_slice(text.as_bytes()) {
        Ok(()) => Ok(()),
        Err(_) => Err(NoMemory),
    }
}
