// The program `drawer` (docs/DRAWER.md): a frame a line in, an answer a line out. Its input and output here are the sample, whole.
#![tactic(auto)]

use drawer_io::run;

fn main(rt: HostRuntime) {
    run(rt.stdin());
}
