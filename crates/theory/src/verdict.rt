// What is known of a box: nothing yet, or that it keeps to the limit, with the bound of its witness,
// or that it exceeds the limit, with the bound and the number of steps within which it does.
#[derive(Clone, Copy, Default, PartialEq, Eq, Debug)]
pub enum Verdict {
    #[default]
    Open,
    Safe { bound: u32 },
    Unsafe { bound: u32, steps: u64 },
}
