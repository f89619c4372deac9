/// Tells the time.
pub trait Clock {
    /// The time now, in whole seconds. Nothing is said of it: it may also go back.
    fn now(&mut self) -> u64;
}
