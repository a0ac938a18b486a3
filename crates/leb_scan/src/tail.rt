// How a text ends.

/// What stands behind the last item of a text: bytes that aren't written, 0xFF to the end of the LEB,
/// or something else in which no item begins.
#[derive(Clone, Copy, Debug, PartialEq, Eq)]
pub enum Tail {
    Clean,
    Torn,
}
