// A sink that keeps nothing.

use crate::Sink;

#[derive(Clone, Copy)]
pub(crate) struct Nothing;

impl Sink for Nothing {
    ghost Takes = { λ s xs t. Unit {0} };

    fn put(&mut self, _bytes: &[u8]) {}

    fn put_byte(&mut self, _byte: u8) {}

    ghost none = { λ s. tt };

    ghost more = { λ s t u xs ys p q. tt };
}
