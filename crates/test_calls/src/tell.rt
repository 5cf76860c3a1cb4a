// An answer's line, but for its end.
use crate::arguments::{Item, MOST_BYTES, Output};
use refusals::{Record, Refusal};
use test_lines::Run;

// The outputs of a call.
pub trait Outputs {
    fn are_kept(&self) -> bool;

    fn put(&self, rt: &HostRuntime);
}

impl<T: Item<N>, const N: usize> Outputs for Output<T, N> {
    fn are_kept(&self) -> bool {
        self.is_kept(0)
    }

    fn put(&self, rt: &HostRuntime) {
        T::put(rt, self.front());
    }
}

impl<A: Outputs, B: Outputs> Outputs for (&A, &B) {
    fn are_kept(&self) -> bool {
        self.0.are_kept() && self.1.are_kept()
    }

    fn put(&self, rt: &HostRuntime) {
        self.0.put(rt);
        self.1.put(rt);
    }
}

fn refusal(rt: &HostRuntime, r: Refusal) {
    let Record {
        number,
        argument,
        place,
    } = Record::from(r);
    let text = format_args!("refused {number:02x} {argument:02x} {place:016x}");
    test_lines::put(rt, text);
}

pub fn given(rt: &HostRuntime, answer: Result<u64, Refusal>) {
    match answer {
        Ok(x) => test_lines::put(rt, format_args!("given {x:016x}")),
        Err(r) => refusal(rt, r),
    }
}

fn kept(rt: &HostRuntime, is: bool) {
    test_lines::put(rt, if is { " kept" } else { " changed" });
}

// What a call filled, or its refusal and whether the outputs were kept.
pub fn filled<O: Outputs>(rt: &HostRuntime, answer: Result<(), Refusal>, outputs: &O) {
    match answer {
        Ok(()) => {
            test_lines::put(rt, "done");
            outputs.put(rt);
        }
        Err(r) => {
            refusal(rt, r);
            kept(rt, outputs.are_kept());
        }
    }
}

// A job's answer at the front of the output, where it fits.
pub fn written(rt: &HostRuntime, size: usize, output: &Output<u8, MOST_BYTES>) {
    match output.front().get(..size) {
        Some(front) => {
            test_lines::put(rt, format_args!("wrote {size:016x} {}", Run(front)));
            kept(rt, output.is_kept(size));
        }
        None => {
            test_lines::put(rt, format_args!("needs {size:016x}"));
            kept(rt, output.is_kept(0));
        }
    }
}
