//! Where the cipher blocks of a stream lie in its file.

ghost use Rattle.std.specs.Prelude.{◌≡◌, ◌+◌, ◌-◌, ◌*◌, ◌≤◌, ◌<◌, ◌^◌, ◌↔◌, ◌⊎◌, ℕ, true, false, min, MatchOption};
ghost use Rattle.icb_stream.specs.Cut.{block_count, block_size, block_start, has_cut, is_block_length, plain_size};

/// The bytes of the magic and the block length.
pub(crate) const HEADER_LENGTH: u64 = 8;

/// The bytes of a nonce and a tag.
pub(crate) const OVERHEAD: u64 = 28;

/// The most bytes of plaintext that a block may have.
const MAX_BLOCK_LENGTH: u32 = 16_777_216;

/// The most blocks that a stream may have.
const MAX_BLOCKS: u64 = 2_147_483_648;

/// How a file of the recorded length is cut into blocks of the block length.
#[derive(Clone, Copy, Debug)]
pub(crate) struct Cut {
    pub(crate) block_length: u32,
    pub(crate) recorded: u64,
    ghost is_cut: { has_cut block_length recorded ≡ true },
}

/// How many blocks such a file has.
#[tactic(auto, unfolding(crate::specs::Cut::block_count))]
fn block_count(block_length: u32, recorded: u64) -> u64
    requires { 8 ≤ recorded }
    ensures { result ≡ block_count block_length recorded }
{
    (recorded - HEADER_LENGTH).div_ceil(block_length as u64 + OVERHEAD)
}

/// Whether a block may have this length.
pub(crate) fn is_block_length(block_length: u32) -> bool
    ensures { result ≡ is_block_length block_length }
{
    1 <= block_length && block_length <= MAX_BLOCK_LENGTH
}

/// Whether such a file is cut into such blocks.
#[tactic(auto, unfolding(crate::specs::Cut::has_cut))]
fn has_cut(block_length: u32, recorded: u64) -> bool
    ensures { result ≡ has_cut block_length recorded }
{
    if recorded < HEADER_LENGTH + OVERHEAD {
        return false;
    }
    let blocks = block_count(block_length, recorded);
    let last = HEADER_LENGTH + (blocks - 1) * (block_length as u64 + OVERHEAD);
    is_block_length(block_length) && blocks <= MAX_BLOCKS && recorded - last >= OVERHEAD
}

impl Cut {
    /// The cut, where there is one.
    pub(crate) fn new(block_length: u32, recorded: u64) -> Option<Cut>
        ensures { MatchOption result (has_cut block_length recorded ≡ false)
            (λ cut. (has_cut block_length recorded ≡ true)
            × (cut.block_length ≡ block_length) × (cut.recorded ≡ recorded)) }
    {
        if has_cut(block_length, recorded) {
            Some(Cut {
                block_length,
                recorded,
            })
        } else {
            None
        }
    }

    /// How many blocks there are, 1 to 2^31.
    pub(crate) fn blocks(&self) -> u32
        ensures count { result ≡ block_count self.now.block_length self.now.recorded }
        ensures some { 1 ≤ result }
        ensures few { result ≤ 2 ^ 31 }
    {
        block_count(self.block_length, self.recorded) as u32
    }

    /// The first byte of a block in the file.
    pub(crate) fn start(&self, number: u32) -> u64
        requires { number < block_count self.now.block_length self.now.recorded }
        ensures { result ≡ block_start self.now.block_length number }
    {
        HEADER_LENGTH + number as u64 * (self.block_length as u64 + OVERHEAD)
    }

    /// How many bytes a cipher block has in the file.
    pub(crate) fn size(&self, number: u32) -> u64
        requires { number < block_count self.now.block_length self.now.recorded }
        ensures size { result ≡ block_size self.now.block_length self.now.recorded number }
        ensures room { 28 ≤ result }
        ensures block { result ≤ self.now.block_length + 28 }
    {
        let left = self.recorded - self.start(number);
        left.min(self.block_length as u64 + OVERHEAD)
    }

    /// The most bytes that a cipher block has in the file.
    pub(crate) fn largest(&self) -> u64
        ensures { result ≡ min (self.now.block_length + 28) (self.now.recorded - 8) }
    {
        (self.block_length as u64 + OVERHEAD).min(self.recorded - HEADER_LENGTH)
    }

    /// How many bytes of plaintext all blocks have.
    pub(crate) fn plain_length(&self) -> u64
        ensures { result ≡ self.now.recorded - 8
            - 28 * block_count self.now.block_length self.now.recorded }
    {
        self.recorded - HEADER_LENGTH - OVERHEAD * self.blocks() as u64
    }

    /// The block that has the byte of plaintext at this place.
    pub(crate) fn block_of_place(&self, at: u64) -> u32
        requires { at < plain_size self.now.recorded
            (block_count self.now.block_length self.now.recorded) }
        ensures number { result < block_count self.now.block_length self.now.recorded }
        ensures begins { result * self.now.block_length ≤ at }
        ensures ends { at < (result + 1) * self.now.block_length }
    {
        (at / self.block_length as u64) as u32
    }

    /// The end of the blocks that some bytes of plaintext touch, which end at this place. At the
    /// end of the plaintext that is the end of all blocks, for the last one may have no plaintext.
    pub(crate) fn touched_end(&self, end: u64) -> u32
        requires some { 1 ≤ end }
        requires range { end ≤ plain_size self.now.recorded
            (block_count self.now.block_length self.now.recorded) }
        ensures number { result ≤ block_count self.now.block_length self.now.recorded }
        ensures reaches { end ≤ result * self.now.block_length }
        ensures touched { (i : ℕ) → i < result → (i * self.now.block_length < end)
            ⊎ ((end ≡ plain_size self.now.recorded
            (block_count self.now.block_length self.now.recorded))
            × (i + 1 ≡ block_count self.now.block_length self.now.recorded)) }
        ensures last { end ≡ plain_size self.now.recorded
            (block_count self.now.block_length self.now.recorded)
            → result ≡ block_count self.now.block_length self.now.recorded }
    {
        if end == self.plain_length() {
            self.blocks()
        } else {
            self.block_of_place(end - 1) + 1
        }
    }
}
