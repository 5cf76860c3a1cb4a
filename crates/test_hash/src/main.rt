// Reads questions from standard input and writes one line of answer for each hash that is asked; stdout has the outside answers.
//
// A question is a line of a word, a space and a number of five digits:
//   mess NNNNN   the next line is a message of N bytes in hex, for the questions that follow
//   sha3 00032   SHA3-256 of the message, in hex
//   full NNNNN   all N bytes of SHAKE256 in hex
//   shak NNNNN   N bytes of SHAKE256 in hex; of more than 64 the first 32 and the last 32, with two dots between. Any other word is as this one
#![tactic(auto)]

use arrayvec::ArrayVec;
use test_lines::Run;

// No run has more questions.
const MOST: usize = 100_000;

// No message is longer.
const LONGEST_MESSAGE: usize = 4096;

// No answer is longer.
const LONGEST_ANSWER: usize = 9216;

// Of more than 64 bytes only the first 32 and the last 32.
fn tell_ends(rt: &HostRuntime, bytes: &[u8]) {
    let n = bytes.len();
    if n <= 64 {
        return test_lines::tell(rt, Run(bytes));
    }
    let first = &bytes[0..32];
    let last = &bytes[n - 32..];
    test_lines::tell(rt, format_args!("{}..{}", Run(first), Run(last)));
}

fn read_size(rt: &HostRuntime) -> usize {
    let mut text = [0u8; 7];
    test_lines::read_full(rt, &mut text);
    let size = text[1..6].iter().fold(0u64, |n, d| {
        n.saturating_mul(10).saturating_add(test_lines::digit(*d))
    });
    size as usize
}

fn read_message(rt: &HostRuntime, message: &mut [u8]) {
    for byte in message.iter_mut() {
        let mut digits = [0u8; 2];
        test_lines::read_full(rt, &mut digits);
        *byte = test_lines::byte(digits[0], digits[1]);
    }
    test_lines::read_end(rt);
}

fn sha3(message: &[u8]) -> [u8; 32] {
    let mut output = [0u8; 32];
    hash::sha3_256(message, &mut output);
    output
}

// Zeros, of which no more than N have room: an ArrayVec, so that no run stops for want of memory.
fn zeros<const N: usize>(size: usize) -> ArrayVec<u8, N> {
    let mut bytes = ArrayVec::from([0u8; N]);
    bytes.truncate(size);
    bytes
}

fn shake(message: &[u8], size: usize) -> ArrayVec<u8, LONGEST_ANSWER> {
    let mut output = zeros(size);
    hash::shake256(message, &mut output);
    output
}

fn main(rt: HostRuntime) {
    let mut message = zeros::<LONGEST_MESSAGE>(0);
    for _ in 0..MOST {
        let Some(word) = test_lines::read_name(&rt) else {
            break;
        };
        let size = read_size(&rt);
        match &word {
            b"mess" => {
                message = zeros(size);
                read_message(&rt, &mut message);
            }
            b"sha3" => test_lines::tell(&rt, Run(&sha3(&message))),
            b"full" => test_lines::tell(&rt, Run(&shake(&message, size))),
            _ => tell_ends(&rt, &shake(&message, size)),
        }
    }
}
