//! The files of a watch.
ghost use Rattle.std.specs.Prelude.{◌≤◌, length, map};
ghost use Rattle.s7_cli.specs.Command.{watch_inputs};
ghost use Rattle.s7_cli.specs.Inner.{AllRead};
ghost use Rattle.s7_cli.specs.Reading.{disk_moments};
ghost use Rattle.s7_cli.specs.WatchTexts.{watch_contents};

use crate::failures::{Failure, File};
use crate::files::{read_file, read_scripts};
use plc_io::Files;
use std::alloc::Global;

/// What the files of a watch hold.
#[derive(Drop)]
pub struct WatchText {
    /// The image.
    pub image: Vec<u8>,
    /// What the feeder makes.
    pub stimuli: Vec<u8>,
    /// What the last operator reads.
    pub vars: Vec<u8>,
    /// What the other operators ask, in their order.
    pub scripts: Vec<Vec<u8>>,
}

/// Reads an image whole, then stimuli, the variables, and the scripts in their order.
pub fn read_watch<F: Files>(
    alloc: Global,
    files: &mut F,
    image: &str,
    stimuli: &str,
    vars: &str,
    scripts: &[&str],
) -> Result<WatchText, Failure>
    requires { length scripts.now ≤ 3 }
    ensures { AllRead watch_contents (disk_moments (F.shown files.old) (F.shown files.new))
        (watch_inputs image.now stimuli.now vars.now (map (λ s. s.now) scripts.now)) result }
{
    let image = read_file(alloc, files, File::Image, image)?;
    let stimuli = read_file(alloc, files, File::Stimuli, stimuli)?;
    let vars = read_file(alloc, files, File::Vars, vars)?;
    let scripts = read_scripts(alloc, files, scripts)?;
    Ok(WatchText {
        image,
        stimuli,
        vars,
        scripts,
    })
}
