// A state block: the renderer's part, `store::Block`, and behind it the area of what waits (R-12).
ghost use Rattle.std.specs.Prelude.{◌≡◌, length};
ghost use Rattle.rules.specs.Samples.{fresh};
ghost use Rattle.theorem.specs.Instance.{hall, block_size, block_valid, block_encode};

use store::Block;
use store::hall_table::HallTable;

// Whether a block has the right length, and each of its fields is within its range.
pub fn is_valid(state: &[u8]) -> bool
    ensures { result ≡ block_valid state.now }
{
    let Some((block, area)) = state.split_first_chunk() else {
        return false;
    };
    let block: &Block = block;
    let Some(area) = area.as_array() else {
        return false;
    };
    store::ranges::is_valid(block) && waits::is_valid(area, store::position(block))
}

// A new renderer of a hall, and nothing waits.
pub fn make(state: &mut [u8], layout: u32, table: &HallTable)
    requires { length state.old ≡ block_size }
    ensures { state.new ≡ block_encode (fresh hall (record { layout = layout; table = table.now })) }
{
    let (block, area): (&mut Block, _) = state.split_first_chunk_mut().unwrap();
    store::make(block, layout, table);
    area.fill(0);
}
