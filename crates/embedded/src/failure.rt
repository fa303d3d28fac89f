// Why the replies to a text are not written.
#[derive(Clone, Copy, PartialEq, Eq, Debug)]
pub enum Failure {
    // They have more bytes than there are places; this is how many they have.
    TooSmall(usize),
    // There is no memory for the session or for the replies.
    NoMemory,
}
