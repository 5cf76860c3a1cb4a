// A question: four arguments and two places that are set.

// An argument: of its length, which may be any four digits, `numbers` and `bytes` make how much is lent.
#[derive(Clone, Copy)]
pub struct Argument {
    pub length: usize,
    pub seed: u64,
}

#[derive(Clone, Copy)]
pub struct Place {
    pub argument: u64,
    pub index: usize,
    pub value: u64,
}

#[derive(Clone, Copy)]
pub struct Question {
    pub first: Argument,
    pub second: Argument,
    pub third: Argument,
    pub fourth: Argument,
    pub places: [Place; 2],
}

fn read_argument(rt: &HostRuntime) -> Argument {
    Argument {
        length: test_lines::read_digits(rt, 4) as usize,
        seed: test_lines::read_digits(rt, 16),
    }
}

fn read_place(rt: &HostRuntime) -> Place {
    Place {
        argument: test_lines::read_digits(rt, 1),
        index: test_lines::read_digits(rt, 4) as usize,
        value: test_lines::read_digits(rt, 16),
    }
}

// All of a question but its name and the line's end.
pub fn read(rt: &HostRuntime) -> Question {
    Question {
        first: read_argument(rt),
        second: read_argument(rt),
        third: read_argument(rt),
        fourth: read_argument(rt),
        places: [read_place(rt), read_place(rt)],
    }
}
