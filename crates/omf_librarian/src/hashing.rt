//! The hashes of a name, by which a dictionary is searched (TIS OMF 1.1, Appendix 2, "Dictionary Hashing Algorithm").

ghost use Rattle.std.specs.Prelude.{◌≡◌, ◌<◌, ◌≤◌, ◌+◌, length};
ghost use Rattle.std.specs.List.{fold};
ghost use Rattle.omf_librarian.specs.Hashing.{from_end, from_front, hash_of, turned_left, turned_right};
ghost use Rattle.omf_librarian.specs.inside.Views.{IsTurned, hash_view};

/// How many buckets a block of a dictionary has.
pub(crate) const BUCKETS: usize = 37;

/// Where the search for a name begins in a dictionary, and how far it goes on.
#[derive(Clone, Copy)]
pub(crate) struct Hash {
    /// The first block of the search.
    pub block: usize,
    /// How many blocks further the next one is.
    pub block_delta: usize,
    /// The first bucket in each block.
    pub bucket: usize,
    /// How many buckets further the next one is.
    pub bucket_delta: usize,
}

/// Two hashes of bytes, one turned to the left and one to the right before each byte.
#[derive(Clone, Copy)]
struct Turned {
    left: u16,
    right: u16,
}

impl Turned {
    /// Those of no bytes.
    const NONE: Turned = Turned { left: 0, right: 0 };

    /// Those of the bytes and one more, which counts as a small letter if it is a letter.
    #[tactic(auto, unfolding(crate::specs::Hashing::turned_left, crate::specs::Hashing::turned_right))]
    fn with(self, byte: u8) -> Turned
        ensures left { result.left ≡ turned_left self.left byte }
        ensures right { result.right ≡ turned_right self.right byte }
    {
        let small = u16::from(byte | 0x20);
        Turned {
            left: self.left.rotate_left(2) ^ small,
            right: self.right.rotate_right(2) ^ small,
        }
    }
}

/// Those of the length of a name and all its bytes but the last, in this order.
fn from_front(name: &[u8]) -> Turned
    requires { length name.now ≤ 255 }
    ensures { IsTurned (from_front name.now) result }
{
    if name.is_empty() {
        return Turned::NONE;
    }
    let mut turned = Turned::NONE.with(name.len() as u8);
    for byte in &name[..name.len() - 1] {
        turned = turned.with(*byte);
    }
    turned
}

/// Those of the bytes of a name, its last byte first.
fn from_end(name: &[u8]) -> Turned
    ensures { IsTurned (from_end name.now) result }
{
    let mut turned = Turned::NONE;
    for at in (0..name.len()).rev() {
        turned = turned.with(name[at]);
    }
    turned
}

impl Hash {
    /// That of a name in a dictionary of so many blocks.
    #[tactic(auto, unfolding(crate::specs::Hashing::hash_of))]
    pub(crate) fn new(blocks: usize, name: &[u8]) -> Hash
        requires some { 0 < blocks }
        requires short { length name.now ≤ 255 }
        ensures said { hash_view result ≡ hash_of blocks name.now }
        ensures block { result.block < blocks }
        ensures bucket { result.bucket < 37 }
        ensures block_delta { result.block_delta ≤ blocks }
        ensures bucket_delta { result.bucket_delta < 37 }
    {
        let front = from_front(name);
        let end = from_end(name);
        Hash {
            block: usize::from(front.left) % blocks,
            block_delta: (usize::from(end.left) % blocks).max(1),
            bucket: usize::from(end.right) % BUCKETS,
            bucket_delta: (usize::from(front.right) % BUCKETS).max(1),
        }
    }
}
