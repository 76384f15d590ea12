// What a load says besides its key.
use crate::keys::EngineKey;

/// What the disk cache keeps of a load, after Glide's `DiskCacheStrategy`: `All`, `Source` for its `DATA`,
/// `Results` for its `RESOURCE`, `Nowhere` for its `NONE`, and `Automatic`, which stands for `Source`.
#[derive(Clone, Copy, Debug, PartialEq, Eq)]
pub enum Strategy {
    All,
    Source,
    Results,
    Nowhere,
    Automatic,
}

/// Which jobs are started first, after Glide's `Priority`.
#[derive(Clone, Copy, Debug, PartialEq, Eq)]
pub enum Priority {
    Immediate,
    High,
    Normal,
    Low,
}

/// What a load asks for: the picture, what the disk cache keeps, how soon, whether memory is passed over
/// (`skip`), and whether only what is cached may answer (`cached`).
#[derive(Drop)]
pub struct LoadSpec {
    pub key: EngineKey,
    pub strategy: Strategy,
    pub priority: Priority,
    pub skip: bool,
    pub cached: bool,
}
