//! Simulated runs for programs in C.
ghost use Rattle.gossipmpi_c.specs.Runs.{Prints, Says};

use crate::ran::run_script;
use crate::write_text;
use std::alloc::Global;

/// What `gossipmpi run` prints of the script with these options, between which blanks stand. The caller's thread makes the run, so `--threads` is refused,
/// and `--workers` changes nothing. In C:
/// `uint8_t gossipmpi_run(const uint8_t *script, size_t length, const uint8_t *options, size_t many, uint8_t *out, size_t room, size_t *needed)`.
#[unsafe(no_mangle)]
pub extern "C" fn gossipmpi_run(
    alloc: Global,
    script: &[u8],
    options: &[u8],
    out: &mut [u8],
    needed: &mut usize,
) -> u8
    ensures { Prints options.now script.now out.old out.new needed.new result }
{
    let ran = run_script(alloc, options, script);
    write_text(ran.printed.as_slice(), out, needed);
    ran.status
}

/// What `gossipmpi run` says of the same run on the standard error: with `--trace` or `--table` what it shows of the run as it goes, who waits, and with
/// `--explain` why. In C:
/// `uint8_t gossipmpi_run_says(const uint8_t *script, size_t length, const uint8_t *options, size_t many, uint8_t *out, size_t room, size_t *needed)`.
#[unsafe(no_mangle)]
pub extern "C" fn gossipmpi_run_says(
    alloc: Global,
    script: &[u8],
    options: &[u8],
    out: &mut [u8],
    needed: &mut usize,
) -> u8
    ensures { Says options.now script.now out.old out.new needed.new result }
{
    let ran = run_script(alloc, options, script);
    write_text(ran.said.as_slice(), out, needed);
    ran.status
}
