// A listing: its entries in the order in which they came, at most LIMIT of them. Whether one may stand twice is for its
// owner to say: `append` keeps it out, and `push` does not ask.
ghost use Rattle.std.specs.Prelude.{◌≤◌, vec_len, vec_capacity};

#[derive(Drop)]
pub struct Listing<T, const LIMIT: usize> {
    pub(crate) entries: Vec<T>,
    // The memory for all entries is there, and no more of them than the limit. (The strands of a book hold the same of their
    // own, and say why.)
    ghost room: { LIMIT ≤ vec_capacity entries },
    ghost few: { vec_len entries ≤ LIMIT },
}
