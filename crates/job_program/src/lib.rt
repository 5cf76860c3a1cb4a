// The program `job` as a function: one job from standard input, its answer to standard output (docs/SCHEME.md, "The job program"). It reads at
// most one byte more than the longest job has, so any input, even an endless one, is answered. Where reading fails nothing is answered.
#![tactic(auto)]

ghost use Rattle.std.specs.Prelude.{◌≤◌, ◌<◌, length};
ghost use Rattle.job_calls.specs.Jobs.{longest_answer, dec_job_bytes};
ghost use Rattle.job_program.specs.Inputs.{Answers};

use job_calls::{LONGEST_ANSWER, LONGEST_JOB};
use streams::Stopped;

// One byte more than the longest job tells a job that is too long from one that is not.
const MOST: usize = LONGEST_JOB + 1;

// The answer to every input of which the first n bytes of buf are as much as buf has room for.
// Stays: the clause `Answers`, here and for `reply`, speaks of the room that buf has behind the n bytes: a slice of those alone would say less.
fn answer(buf: &[u8], n: usize, output: &mut [u8]) -> usize
    requires { (n ≤ length buf.now) × (dec_job_bytes < length buf.now) }
    ensures { (result ≤ longest_answer) × Answers buf.now n result output.old output.new }
{
    galmuriec::job(&buf[..n], output)
}

// Says on standard error what stopped a stream.
fn complain(rt: &HostRuntime, what: &str, why: Stopped) {
    let _ = eprintln!(rt; "job: {what}: {why}");
}

// Writes the answer to the input.
fn reply(rt: &HostRuntime, buf: &[u8], n: usize)
    requires { (n ≤ length buf.now) × (dec_job_bytes < length buf.now) }
{
    let mut output = [0u8; LONGEST_ANSWER];
    let m = answer(buf, n, &mut output);
    if let Err(why) = streams::write_all(rt, &mut rt.stdout(), &output[..m]) {
        complain(rt, "the answer could not be written whole", why);
    }
}

// Reads a job and writes its answer, or says on standard error why not.
pub fn run(rt: &HostRuntime) {
    let mut buf = [0u8; MOST];
    match streams::read_all(rt, &mut rt.stdin(), &mut buf) {
        Ok(n) => reply(rt, &buf, n),
        Err(why) => complain(rt, "standard input could not be read", why),
    }
}
