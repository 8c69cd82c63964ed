// Runs a job sheet: reads it from standard input, and writes what its lines print to standard output.
// A sheet that is denied as a whole writes nothing, and the program ends with status 1.
#![tactic(auto)]

mod reading;

use reading::read_up_to;
use sealed::run_sheet;
use std::io::Write;
use std::process::ExitCode;

fn main(rt: HostRuntime) -> anyhow::Result<ExitCode> {
    // one byte more than a sheet may have, so that a longer one is seen to be longer
    let mut bytes = [0; 2_049];
    let sheet = read_up_to(&mut rt.stdin(), &mut bytes)?;
    // the room that every sheet is sure to have enough of
    let mut out = [0; 36_864];
    let Ok(written) = run_sheet(sheet, &mut out) else {
        return Ok(ExitCode::FAILURE);
    };
    rt.stdout().write_all(&out[..written])?;
    Ok(ExitCode::SUCCESS)
}
