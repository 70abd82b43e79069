//! Laws of the definitions, and the count of blocks that they come to.
ghost use Rattle.std.specs.Prelude.{◌≡◌, ℕ, ◌*◌, List, ◌++◌, length};
ghost use Rattle.sha_1.specs.Laws.{block_count, Sha1Laws};
ghost use Rattle.sha_1.specs.Sha1.{padding};

fn block_count(len: u64) -> u64
    ensures { result ≡ block_count len }
{
    if len % 64 < 56 {
        len / 64 + 1
    } else {
        len / 64 + 2
    }
}

/// How many blocks a message of `len` bytes is padded to; it carries the laws of the definitions.
pub fn padded_blocks(len: u64) -> u64
    ensures count { (m : List ℕ) → length m ≡ len → length (m ++ padding (length m)) ≡ 64 * result }
    ensures laws { Sha1Laws }
{
    block_count(len)
}
