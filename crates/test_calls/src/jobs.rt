// The job call.
use crate::arguments::{Bytes, Item};
use crate::question::Question;
use crate::{arguments, of_kem, tell};

// Any bytes, with the question's places.
#[inline(never)]
pub fn drawn(q: &Question) -> Bytes {
    let mut job = arguments::bytes(q.first);
    arguments::amend(&mut job, q, 1, |x| (x % 256) as u8);
    job
}

// A kind, and what follows, which has room.
fn job_of(kind: u8, first: &[u8], second: &[u8]) -> Bytes {
    let mut job = Bytes::new();
    let _ = job.try_push(kind);
    let _ = job.try_extend_from_slice(first);
    let _ = job.try_extend_from_slice(second);
    job
}

// A job of sealing.
#[inline(never)]
pub fn enc(q: &Question) -> Bytes {
    let mut public = of_kem::public_key(q);
    public.truncate(2080);
    let mut randomness = [0u8; 32];
    arguments::draw_bytes(&mut randomness, q.second.seed);
    job_of(2, &public, &randomness)
}

// A job of opening.
#[inline(never)]
pub fn dec(q: &Question) -> Bytes {
    let ciphertext = arguments::packed(&of_kem::sealed(q));
    job_of(3, &of_kem::secret_key(q.first.seed), &ciphertext)
}

// The answer to a job, cut or with zeros behind to the length that the question says.
#[inline(never)]
pub fn answer(rt: &HostRuntime, q: &Question, mut job: Bytes) {
    arguments::resize(&mut job, q.first.bytes());
    let mut out = u8::output(q.third);
    let size = out.lend(|out| galmuriec::job(&job, out));
    tell::written(rt, size, &out);
}
