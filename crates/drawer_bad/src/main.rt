// The program `drawer` on lines that are bad, and on what stands next to them: its input and output are here to compare.
#![tactic(auto)]

use drawer_io::run;

fn main(rt: HostRuntime) {
    run(rt.stdin());
}
