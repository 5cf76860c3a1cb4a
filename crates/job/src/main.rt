// Reads one job from standard input and writes its answer to standard output; all of it is in `job_program`.
#![tactic(auto)]

fn main(rt: HostRuntime) {
    job_program::run(&rt);
}
