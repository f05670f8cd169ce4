//! Trust account records of a law firm. Reads a day sheet or HTTP messages from standard input, or a bank statement
//! from a file, and writes to standard output.
#![tactic(auto)]

use cashier::run_on_system;
use std::process::ExitCode;
use system_store::SystemStores;

fn main(rt: HostRuntime) -> ExitCode {
    run_on_system(&rt, SystemStores { rt: &rt })
}
