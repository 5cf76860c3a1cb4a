// The kem's calls.
use crate::arguments::{Bytes, Item, MOST_NUMBERS, Numbers};
use crate::question::Question;
use crate::{arguments, tell};
use galmuriec::kem;
use refusals::Refusal;

// ---- keys and packets
// 32 bytes, and then coefficients by the draws that follow.
pub fn public_key(q: &Question) -> Bytes {
    let mut seed = [0u8; 32];
    let next = arguments::draw_bytes(&mut seed, q.first.seed);
    let ga = arguments::coefficients(q, 1, next, MOST_NUMBERS);
    let mut key = Bytes::new();
    let _ = key.try_extend_from_slice(&seed);
    let _ = key.try_extend_from_slice(&arguments::packed(&ga));
    key
}

// The keys of 32 bytes drawn from the seed.
fn make_keys(seed: u64, secret: &mut [u8], public: &mut [u8]) {
    let mut randomness = [0u8; 32];
    arguments::draw_bytes(&mut randomness, seed);
    let _ = kem::keygen(&randomness, secret, public);
}

pub fn secret_key(seed: u64) -> [u8; 64] {
    let mut secret = [0u8; 64];
    let mut public = [0u8; 2080];
    make_keys(seed, &mut secret, &mut public);
    secret
}

// A packet sealed for the keys of the fourth seed with 32 bytes drawn from the second.
fn packet(q: &Question) -> [u64; 320] {
    let mut secret = [0u8; 64];
    let mut public = [0u8; 2080];
    let mut randomness = [0u8; 32];
    let mut shared = [0u8; 32];
    let mut ciphertext = [0u64; 320];
    make_keys(q.fourth.seed, &mut secret, &mut public);
    arguments::draw_bytes(&mut randomness, q.second.seed);
    let _ = kem::enc_numbers(&public, &randomness, &mut shared, &mut ciphertext);
    ciphertext
}

// A sealed packet with the question's places, and then zeros.
pub fn sealed(q: &Question) -> Numbers {
    let mut numbers = Numbers::from([0; MOST_NUMBERS]);
    numbers[..320].copy_from_slice(&packet(q));
    arguments::amend(&mut numbers, q, 2, |x| x);
    numbers
}

// ---- answers
#[inline(never)]
pub fn keygen(rt: &HostRuntime, q: &Question) {
    let randomness = arguments::bytes(q.first);
    let mut secret = u8::output(q.second);
    let mut public = u8::output(q.third);
    let answer = secret.lend_both(&mut public, |secret, public| {
        kem::keygen(&randomness, secret, public)
    });
    tell::filled(rt, answer, &(&secret, &public));
}

// A public key of as many bytes as the first argument has.
fn public_lent(q: &Question) -> Bytes {
    let mut public = public_key(q);
    arguments::resize(&mut public, q.first.bytes());
    public
}

#[inline(never)]
pub fn enc(rt: &HostRuntime, q: &Question) {
    let public = public_lent(q);
    let randomness = arguments::bytes(q.second);
    let mut shared = u8::output(q.third);
    let mut ciphertext = u8::output(q.fourth);
    let answer = shared.lend_both(&mut ciphertext, |shared, ciphertext| {
        kem::enc(&public, &randomness, shared, ciphertext)
    });
    tell::filled(rt, answer, &(&shared, &ciphertext));
}

// Stays: apart from `enc`, as a function for both would ask that an array of items of any type has room.
#[inline(never)]
pub fn enc_numbers(rt: &HostRuntime, q: &Question) {
    let public = public_lent(q);
    let randomness = arguments::bytes(q.second);
    let mut shared = u8::output(q.third);
    let mut ciphertext = u64::output(q.fourth);
    let answer = shared.lend_both(&mut ciphertext, |shared, ciphertext| {
        kem::enc_numbers(&public, &randomness, shared, ciphertext)
    });
    tell::filled(rt, answer, &(&shared, &ciphertext));
}

// What is lent to the calls that open.
#[derive(Drop)]
pub struct Opening {
    secret: Bytes,
    ciphertext: Numbers,
}

impl Opening {
    // Drawn from the seeds, with the question's places.
    #[inline(never)]
    pub fn drawn(q: &Question) -> Opening {
        Opening {
            secret: arguments::bytes(q.first),
            ciphertext: arguments::coefficients(q, 2, q.second.seed, MOST_NUMBERS),
        }
    }

    // A secret key and a sealed packet.
    #[inline(never)]
    pub fn made(q: &Question) -> Opening {
        let mut secret = Bytes::new();
        let _ = secret.try_extend_from_slice(&secret_key(q.first.seed));
        arguments::resize(&mut secret, q.first.bytes());
        let ciphertext = sealed(q);
        Opening { secret, ciphertext }
    }

    #[inline(never)]
    pub fn dec(&self, rt: &HostRuntime, q: &Question) {
        let mut bytes = arguments::packed(&self.ciphertext);
        arguments::resize(&mut bytes, q.second.bytes());
        open(rt, q, &self.secret, &bytes, kem::dec);
    }

    #[inline(never)]
    pub fn dec_numbers(self, rt: &HostRuntime, q: &Question) {
        let mut numbers = self.ciphertext;
        numbers.truncate(q.second.numbers());
        open(rt, q, &self.secret, &numbers, kem::dec_numbers);
    }
}

// With a ciphertext of bytes or of numbers.
#[inline(never)]
fn open<T, F: Fn(&[u8], &[T], &mut [u8]) -> Result<(), Refusal>>(
    rt: &HostRuntime,
    q: &Question,
    secret: &[u8],
    ciphertext: &[T],
    call: F,
)
    requires { F.IsAlwaysCallable call }
{
    let mut shared = u8::output(q.third);
    let answer = shared.lend(|shared| call(secret, ciphertext, shared));
    tell::filled(rt, answer, &shared);
}

#[inline(never)]
pub fn clear(rt: &HostRuntime, q: &Question) {
    let mut secret = u8::output(q.first);
    let answer = secret.lend(kem::clear);
    tell::filled(rt, answer, &secret);
}
