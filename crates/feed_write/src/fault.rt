/// Why an entry is not written.
#[derive(Clone, Copy, Debug, PartialEq, Eq)]
pub enum WriteFault {
    /// A reference that has not 1 to 16 bytes.
    Reference,
    /// Fewer bytes are free than the entry takes.
    Room,
}
