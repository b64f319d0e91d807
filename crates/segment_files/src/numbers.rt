// Numbers in bytes, with the greatest byte first.
ghost use Rattle.std.specs.Prelude.{◌≡◌, ◌+◌, ◌≤◌, length};
ghost use Rattle.segment_files.specs.Numbers.{bytes_of, number_at};

/// How many bytes a number has.
#[derive(Clone, Copy, Debug, PartialEq, Eq)]
pub(crate) enum Size {
    One,
    Four,
    Eight,
}

impl Size {
    /// So many bytes.
    pub(crate) fn bytes(self) -> usize
        ensures { result ≡ bytes_of self }
    {
        match self {
            Size::One => 1,
            Size::Four => 4,
            Size::Eight => 8,
        }
    }
}

#[tactic(auto, unfolding(crate::specs::Numbers::number_at))]
/// The number of 4 bytes at this place.
pub(crate) fn u32_at(bytes: &[u8], at: usize) -> u32
    requires { at + 4 ≤ length bytes.now }
    ensures { result ≡ number_at Size.Four at bytes.now }
{
    let mut part = [0u8; 4];
    part.copy_from_slice(&bytes[at..at + 4]);
    u32::from_be_bytes(part)
}

#[tactic(auto, unfolding(crate::specs::Numbers::number_at))]
/// The number of 8 bytes at this place.
pub(crate) fn u64_at(bytes: &[u8], at: usize) -> u64
    requires { at + 8 ≤ length bytes.now }
    ensures { result ≡ number_at Size.Eight at bytes.now }
{
    let mut part = [0u8; 8];
    part.copy_from_slice(&bytes[at..at + 8]);
    u64::from_be_bytes(part)
}

#[tactic(auto, unfolding(crate::specs::Numbers::number_at))]
/// The number of this size at this place.
pub(crate) fn number_in(bytes: &[u8], at: usize, size: Size) -> u64
    requires { at + bytes_of size ≤ length bytes.now }
    ensures { result ≡ number_at size at bytes.now }
{
    match size {
        Size::One => u64::from(bytes[at]),
        Size::Four => u64::from(u32_at(bytes, at)),
        Size::Eight => u64_at(bytes, at),
    }
}
