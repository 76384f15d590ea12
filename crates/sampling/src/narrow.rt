// Sums in lanes of 32 bits, for blocks whose sums fit.
ghost use Rattle.std.specs.Prelude.{◌≡◌, ℕ, ◌+◌, ◌*◌, ◌/◌, ◌^◌, ◌<◌, ◌≤◌, ◌∷◌, [], length, slice_index, replicate};
ghost use Rattle.sampling.specs.Lanes.{line_sum, AddsBlock, AddsRow, GivesMeans};

/// Adds a row to the sums, block by block.
pub fn add_row(sums: &mut [u32], row: &[u8], columns: usize, blocks: usize)
    requires lanes { length sums.old ≡ 4 * blocks }
    requires pixels { 4 * (columns * blocks) ≤ length row.now }
    requires room { (k : ℕ) → slice_index sums.old k + 255 * columns < 2 ^ 32 }
    ensures { AddsRow sums.old sums.new row.now columns blocks }
{
    for x in 0..blocks {
        let first = 4 * (columns * x);
        add_block(
            &mut sums[4 * x..4 * x + 4],
            &row[first..first + 4 * columns],
            columns,
        );
    }
}

fn add_block(lanes: &mut [u32], block: &[u8], columns: usize)
    requires lanes { length lanes.old ≡ 4 }
    requires pixels { length block.now ≡ 4 * columns }
    requires room { (k : ℕ) → slice_index lanes.old k + 255 * columns < 2 ^ 32 }
    ensures { AddsBlock lanes.old lanes.new block.now columns }
{
    let [red, green, blue, alpha] = block_sums(block, columns);
    lanes[0] += red;
    lanes[1] += green;
    lanes[2] += blue;
    lanes[3] += alpha;
}

fn block_sums(block: &[u8], columns: usize) -> [u32; 4]
    requires pixels { length block.now ≡ 4 * columns }
    requires room { 255 * columns < 2 ^ 32 }
    ensures sums { result ≡ line_sum block.now 0 columns 0 ∷ line_sum block.now 0 columns 1
        ∷ line_sum block.now 0 columns 2 ∷ line_sum block.now 0 columns 3 ∷ [] }
    ensures bound { (k : ℕ) → slice_index result k ≤ 255 * columns }
{
    let mut red = 0u32;
    let mut green = 0u32;
    let mut blue = 0u32;
    let mut alpha = 0u32;
    for i in 0..columns {
        red += block[4 * i] as u32;
        green += block[4 * i + 1] as u32;
        blue += block[4 * i + 2] as u32;
        alpha += block[4 * i + 3] as u32;
    }
    [red, green, blue, alpha]
}

/// Writes the mean of each lane, whose sum is of `count` numbers, and clears the lanes.
pub fn means(sums: &mut [u32], into: &mut [u8], count: u32)
    requires size { length into.old ≡ length sums.old }
    requires some { 0 < count }
    requires room { 255 * count + count / 2 < 2 ^ 32 }
    requires bound { (k : ℕ) → slice_index sums.old k ≤ 255 * count }
    ensures { GivesMeans sums.old sums.new into.new count }
{
    let shift = count.ilog2();
    if 1 << shift == count {
        means_by_shift(sums, into, shift);
    } else {
        means_by_division(sums, into, count);
    }
}

fn means_by_shift(sums: &mut [u32], into: &mut [u8], shift: u32)
    requires size { length into.old ≡ length sums.old }
    requires width { shift < 32 }
    requires room { 255 * 2 ^ shift + 2 ^ shift / 2 < 2 ^ 32 }
    requires bound { (k : ℕ) → slice_index sums.old k ≤ 255 * 2 ^ shift }
    ensures { GivesMeans sums.old sums.new into.new (2 ^ shift) }
{
    let half = (1 << shift) / 2;
    for k in 0..into.len() {
        into[k] = ((sums[k] + half) >> shift) as u8;
        sums[k] = 0;
    }
}

fn means_by_division(sums: &mut [u32], into: &mut [u8], count: u32)
    requires size { length into.old ≡ length sums.old }
    requires some { 0 < count }
    requires room { 255 * count + count / 2 < 2 ^ 32 }
    requires bound { (k : ℕ) → slice_index sums.old k ≤ 255 * count }
    ensures { GivesMeans sums.old sums.new into.new count }
{
    let half = count / 2;
    for i in 0..into.len() {
        into[i] = ((sums[i] + half) / count) as u8;
        sums[i] = 0;
    }
}
