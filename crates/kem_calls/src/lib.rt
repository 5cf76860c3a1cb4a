// The public calls of the kem: keygen, enc, dec, with the ciphertext in bytes or as numbers, and the clearing of a secret key.
// None demands anything of the caller.
#![tactic(auto)]

ghost use Rattle.std.specs.Prelude.{[], ◌∷◌, length};
ghost use Rattle.laws.specs.Lists.{zeros};
ghost use Rattle.codec.specs.Layout.{words, bytes};
ghost use Rattle.codec.specs.Sizes.{secret_key_bytes, public_key_bytes, shared_key_bytes, randomness_bytes};
ghost use Rattle.refusals.specs.Arguments.{room, packed};
ghost use Rattle.refusals.specs.Answers.{Judges, Fills, FillsTwo};
ghost use Rattle.refusals.specs.Asks as asks;
ghost use Rattle.lanes.specs.Samplers.{ones};
ghost use Rattle.packets.specs.Packets as packets;
ghost use Rattle.packets.specs.Layout.{public_bytes, public_of};
ghost use Rattle.kem_calls.specs.Verdict.{Unseals};

use codec::{
    CIPHERTEXT_BYTES, CIPHERTEXT_NUMBERS, PUBLIC_KEY_BYTES, RANDOMNESS_BYTES, SECRET_KEY_BYTES,
    SHARED_KEY_BYTES,
};
use refusals::Refusal;

// ---- what each call asks of its arguments
#[tactic(auto, using(refusals::proofs::Calls::steps), unfolding(refusals::specs::Judgement::judged))]
fn judge_keygen(randomness: usize, secret: usize, public: usize) -> Result<(), Refusal>
    ensures { Judges (asks.keygen randomness secret public) result }
{
    refusals::sized(1, randomness == RANDOMNESS_BYTES)?;
    refusals::sized(2, secret == SECRET_KEY_BYTES)?;
    refusals::sized(3, public == PUBLIC_KEY_BYTES)
}

// The ciphertext has room for n numbers, or n bytes.
#[tactic(auto, using(refusals::proofs::Calls::steps), unfolding(refusals::specs::Judgement::judged))]
fn judge_enc(
    public: &[u8],
    randomness: usize,
    shared: usize,
    ciphertext: usize,
    n: usize,
) -> Result<(), Refusal>
    ensures { Judges (packed public_key_bytes 32 public.now ∷ room randomness_bytes randomness
        ∷ room shared_key_bytes shared ∷ room n ciphertext ∷ []) result }
{
    refusals::sized(1, public.len() == PUBLIC_KEY_BYTES)?;
    refusals::sized(2, randomness == RANDOMNESS_BYTES)?;
    refusals::sized(3, shared == SHARED_KEY_BYTES)?;
    refusals::sized(4, ciphertext == n)?;
    refusals::packed(1, public, PUBLIC_KEY_BYTES, 32)
}

#[tactic(auto, using(refusals::proofs::Calls::steps), unfolding(refusals::specs::Judgement::judged))]
fn judge_dec(secret: usize, ciphertext: &[u8], shared: usize) -> Result<(), Refusal>
    ensures { Judges (asks.dec secret ciphertext.now shared) result }
{
    refusals::sized(1, secret == SECRET_KEY_BYTES)?;
    refusals::sized(2, ciphertext.len() == CIPHERTEXT_BYTES)?;
    refusals::sized(3, shared == SHARED_KEY_BYTES)?;
    refusals::packed(2, ciphertext, CIPHERTEXT_BYTES, 0)
}

// Stays: it differs from `judge_dec` in the ciphertext's length and in the last step; shared, the three lengths would be judged apart from it.
#[tactic(auto, using(refusals::proofs::Calls::steps), unfolding(refusals::specs::Judgement::judged))]
fn judge_dec_numbers(secret: usize, ciphertext: &[u64], shared: usize) -> Result<(), Refusal>
    ensures { Judges (asks.dec_numbers secret ciphertext.now shared) result }
{
    refusals::sized(1, secret == SECRET_KEY_BYTES)?;
    refusals::sized(2, ciphertext.len() == CIPHERTEXT_NUMBERS)?;
    refusals::sized(3, shared == SHARED_KEY_BYTES)?;
    refusals::numbers(2, ciphertext, CIPHERTEXT_NUMBERS)
}

// ---- the calls
pub fn keygen(randomness: &[u8], secret: &mut [u8], public: &mut [u8]) -> Result<(), Refusal>
    ensures { FillsTwo (asks.keygen (length randomness.now) (length secret.old) (length public.old)) result
        secret.old secret.new (packets.keygen ones randomness.now).secret
        public.old public.new (public_bytes (packets.keygen ones randomness.now).public) }
{
    judge_keygen(randomness.len(), secret.len(), public.len())?;
    seal::keygen(randomness, secret, public);
    Ok(())
}

// With the ciphertext as numbers.
// Stays: C has both forms of `enc` and of `dec` by name (`galmuriec_enc_numbers`); they share `judge_enc` and seal's functions.
pub fn enc_numbers(
    public: &[u8],
    randomness: &[u8],
    shared: &mut [u8],
    ciphertext: &mut [u64],
) -> Result<(), Refusal>
    ensures { FillsTwo
        (asks.enc_numbers public.now (length randomness.now)
        (length shared.old) (length ciphertext.old)) result
        shared.old shared.new
        (packets.enc ones (public_of public.now) randomness.now).shared
        ciphertext.old ciphertext.new
        (packets.enc ones (public_of public.now) randomness.now).ciphertext }
{
    judge_enc(
        public,
        randomness.len(),
        shared.len(),
        ciphertext.len(),
        CIPHERTEXT_NUMBERS,
    )?;
    seal::enc(public, randomness, shared, ciphertext);
    Ok(())
}

// With the ciphertext as numbers.
pub fn dec_numbers(secret: &[u8], ciphertext: &[u64], shared: &mut [u8]) -> Result<(), Refusal>
    ensures { Unseals (asks.dec_numbers (length secret.now) ciphertext.now (length shared.old))
        (packets.dec ones secret.now ciphertext.now) result shared.old shared.new }
{
    judge_dec_numbers(secret.len(), ciphertext, shared.len())?;
    let key = seal::dec(secret, ciphertext).ok_or(Refusal::Differs)?;
    shared.copy_from_slice(&key);
    Ok(())
}

pub fn enc(
    public: &[u8],
    randomness: &[u8],
    shared: &mut [u8],
    ciphertext: &mut [u8],
) -> Result<(), Refusal>
    ensures { FillsTwo
        (asks.enc public.now (length randomness.now)
        (length shared.old) (length ciphertext.old)) result
        shared.old shared.new
        (packets.enc ones (public_of public.now) randomness.now).shared
        ciphertext.old ciphertext.new
        (bytes (packets.enc ones (public_of public.now) randomness.now).ciphertext) }
{
    judge_enc(
        public,
        randomness.len(),
        shared.len(),
        ciphertext.len(),
        CIPHERTEXT_BYTES,
    )?;
    let mut numbers = [0u64; CIPHERTEXT_NUMBERS];
    seal::enc(public, randomness, shared, &mut numbers);
    codec::pack(&numbers, ciphertext);
    Ok(())
}

pub fn dec(secret: &[u8], ciphertext: &[u8], shared: &mut [u8]) -> Result<(), Refusal>
    ensures { Unseals (asks.dec (length secret.now) ciphertext.now (length shared.old))
        (packets.dec ones secret.now (words ciphertext.now)) result shared.old shared.new }
{
    judge_dec(secret.len(), ciphertext, shared.len())?;
    let mut numbers = [0u64; CIPHERTEXT_NUMBERS];
    codec::unpack(ciphertext, &mut numbers);
    let key = seal::dec(secret, &numbers).ok_or(Refusal::Differs)?;
    shared.copy_from_slice(&key);
    Ok(())
}

// Clears a secret key: zeros all through; copies held elsewhere are not spoken of.
pub fn clear(secret: &mut [u8]) -> Result<(), Refusal>
    ensures { Fills (asks.clear (length secret.old)) result secret.old secret.new (zeros secret_key_bytes) }
{
    refusals::judge_bytes(secret.len(), SECRET_KEY_BYTES)?;
    secret.fill(0);
    Ok(())
}
