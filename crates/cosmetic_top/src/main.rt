//! The program `cosmetic`: which elements of a page are hidden or taken out, by which filters of lists.
//!
//! `run` is all that it does, over any shelf of files and any sink; `main` calls it with the system's.
#![tactic(auto)]

ghost use Rattle.std.specs.Prelude.{◌≡◌, ◌<◌};

mod apply;
mod drill;
mod end;
mod lists;
mod run;

pub use command_inputs::{File, InputRefusal, Status};
use cos_outside::{FileShelf, StdSink, Steps};
use cos_patterns::CrateMaker;
pub use run::run;
use std::marker::Brand;
use std::process::ExitCode;
use std::sync::ledger::{Blank, Ledger};

#[cfg(test)]
mod filter_tests;
#[cfg(test)]
mod tests;

fn main(rt: HostRuntime) -> ExitCode {
    let status = match end::words(&rt) {
        Ok(words) => run_outside::<Brand, Brand>(
            &rt,
            words.as_slice(),
            Blank::new(1),
            Blank::new(1),
        ),
        Err(status) => status,
    };
    end::tell(&rt, status);
    ExitCode::from(end::code_of(status))
}

// Runs over the system's files and output. The blanks are those of the two counts.
fn run_outside<L: Ledger, P: Ledger>(
    rt: &HostRuntime,
    words: &[String],
    checks: Blank,
    parts: Blank,
) -> Status
    requires checks { checks.name ≡ L.name }
    requires checks_parts { checks.parts ≡ L.parts }
    requires checks_some { 0 < checks.parts }
    requires parts { parts.name ≡ P.name }
    requires parts_parts { parts.parts ≡ P.parts }
    requires parts_some { 0 < parts.parts }
{
    let alloc = rt.alloc();
    let mut shelf = FileShelf::new(rt);
    let mut out = StdSink::new(rt);
    let mut maker = CrateMaker::new(alloc);
    let mut checks = Steps::<L>::new(checks);
    let mut parts = Steps::<P>::new(parts);
    run(
        alloc,
        words,
        &mut shelf,
        &mut out,
        &mut maker,
        &mut checks,
        &mut parts,
    )
}
