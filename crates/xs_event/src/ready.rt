/// Which resources are ready: one bit for each, bit n for number n.
#[derive(Clone, Copy, PartialEq, Eq)]
pub struct Ready {
    pub ports: u32,
    pub timers: u32,
    pub ends: u32,
}
