// The program `job` under another name, for the gate to run it on a second input: a job that is one byte too long.
#![tactic(auto)]

fn main(rt: HostRuntime) {
    job_program::run(&rt);
}
