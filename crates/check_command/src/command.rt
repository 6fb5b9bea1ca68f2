ghost use Rattle.std.specs.Prelude.{◌≡◌, ◌≤◌, ℕ, List, IfOk};
ghost use Rattle.plant_book.specs.Site.{inverters};
ghost use Rattle.site_config.specs.Summary.{summary};
ghost use Rattle.stream_io.specs.Streams.{change};
ghost use Rattle.check_command.specs.Check.{IsCheckDue, IsCheckEnd};

use command_io::{Ended, read_site};
use limiter_num::NoMemory;
use site_config::{SiteFile, summary_text};
use std::alloc::Global;
use stream_io::write_whole;
use world_traits::{Sink, Source};

/// The summary of a site file.
fn summary_of(alloc: Global, file: &SiteFile) -> Result<Vec<u8>, NoMemory>
    requires { inverters file.now.site ≤ 64 }
    ensures { IfOk result (λ text. text.items ≡ summary file.now) }
{
    let mut text = Vec::new(alloc);
    summary_text(&mut text, file)?;
    Ok(text)
}

/// Reads a site file to its end, and writes its summary.
fn check_file<S: Source, O: Sink>(alloc: Global, input: &mut S, out: &mut O) -> Ended
    ensures ends { (read : List ℕ) × IsCheckEnd result read
        (change S.left S.faults input.old input.new) (change O.taken O.faults out.old out.new) }
    ensures nothing { (result ≡ Ended.Done → ⊥) → (result ≡ Ended.WriteFault → ⊥) → out.new ≡ out.old }
    ensures read_faults_stay { S.faults input.old ≤ S.faults input.new }
    ensures write_faults_stay { O.faults out.old ≤ O.faults out.new }
    ensures stops { O.faults out.old ≡ 0 → O.late out.new ≡ O.late out.old }
{
    let file = match read_site(alloc, input) {
        Ok(file) => file,
        Err(ended) => return ended,
    };
    let text = match summary_of(alloc, &file) {
        Ok(text) => text,
        Err(NoMemory) => return Ended::NoMemory,
    };
    match write_whole(out, &text) {
        Ok(()) => Ended::Done,
        Err(_) => Ended::WriteFault,
    }
}

/// Reads a site file to its end, and writes its summary.
pub fn check<S: Source, O: Sink>(alloc: Global, input: &mut S, out: &mut O) -> Ended
    ensures ends { (read : List ℕ) × IsCheckEnd result read
        (change S.left S.faults input.old input.new) (change O.taken O.faults out.old out.new) }
    ensures due { IsCheckDue result
        (change S.left S.faults input.old input.new) (change O.taken O.faults out.old out.new) }
    ensures nothing { (result ≡ Ended.Done → ⊥) → (result ≡ Ended.WriteFault → ⊥) → out.new ≡ out.old }
    ensures read_faults_stay { S.faults input.old ≤ S.faults input.new }
    ensures write_faults_stay { O.faults out.old ≤ O.faults out.new }
    ensures stops { O.faults out.old ≡ 0 → O.late out.new ≡ O.late out.old }
{
    check_file(alloc, input, out)
}
