/// A part of a text: the bytes from `start` up to `end`, which is not part of it; offsets count from 0.
#[derive(Clone, Copy, Debug, PartialEq, Eq)]
pub struct Span {
    pub start: u32,
    pub end: u32,
}
